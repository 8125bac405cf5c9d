//! What the octets of an LSP say behind its header (ISO 10589 9.8).
ghost use Rattle.std.specs.Prelude.{◌≡◌, ◌++◌, is_none, OnOk};
ghost use Rattle.isis_tlv.specs.Walks.{fault_of};
ghost use Rattle.isis_tlv.specs.Tlvs.{tlvs_of};
ghost use Rattle.isis_tlv.specs.Items.{values_of};
ghost use Rattle.lsp_view.specs.Bodies.{body_of, whole, items_in};

use isis_base::numbers::LSP_HEADER;
use isis_base::{AreaAddress, OutOfMemory};
use isis_tlv::laws::tlv_laws;
use isis_tlv::{
    Item, Items, NeighbourItem, PrefixItem, Tlvs, are_tlvs, areas, neighbours, prefixes,
};

/// An item that LSPs list in the TLVs of a code.
pub trait Listed: Item + Copy {
    /// The items of a value, in order.
    fn walk(value: &[u8]) -> Items<'_, Self>
        ensures { result ≡ values_of Self.first 0 value.now };
}

impl Listed for AreaAddress {
    fn walk(value: &[u8]) -> Items<'_, AreaAddress> {
        areas(value)
    }
}

impl Listed for NeighbourItem {
    fn walk(value: &[u8]) -> Items<'_, NeighbourItem> {
        neighbours(value)
    }
}

impl Listed for PrefixItem {
    fn walk(value: &[u8]) -> Items<'_, PrefixItem> {
        prefixes(value)
    }
}

/// Adds what the TLVs of a code say, in order; one with a fault is unread.
#[tactic(auto, unfolding(crate::specs::Bodies::items_in))]
pub fn add_items<I: Listed>(items: &mut Vec<I>, code: u8, octets: &[u8]) -> Result<(), OutOfMemory>
    ensures { OnOk result (items.new.items
        ≡ items.old.items ++ items_in code (values_of I.first 0) octets.now) }
{
    for tlv in Tlvs::new(body(octets), 0) {
        match tlv {
            Ok(tlv) if tlv.code == code => match add_value(items, tlv.value) {
                Ok(()) => {}
                Err(error) => return Err(error),
            },
            Ok(_) => {}
            Err(_) => break,
        }
    }
    Ok(())
}

/// The octets behind the header; none where they aren't a header and TLVs.
#[tactic(auto, unfolding(crate::specs::Bodies::body_of))]
fn body(octets: &[u8]) -> &[u8]
    ensures { result.now ≡ body_of octets.now }
{
    if octets.len() < LSP_HEADER {
        return &[];
    }
    let (_, tlvs) = octets.split_at(LSP_HEADER);
    if has_no_fault(tlvs) { tlvs } else { &[] }
}

/// Whether octets are TLVs to their end.
fn has_no_fault(octets: &[u8]) -> bool
    ensures { result ≡ is_none (fault_of (tlvs_of 0 octets.now)) }
{
    tlv_laws();
    are_tlvs(octets)
}

/// Adds the items of a value, where none has a fault.
#[tactic(auto, unfolding(crate::specs::Bodies::whole))]
fn add_value<I: Listed>(items: &mut Vec<I>, value: &[u8]) -> Result<(), OutOfMemory>
    ensures { OnOk result (items.new.items
        ≡ items.old.items ++ whole (values_of I.first 0 value.now)) }
{
    if !is_whole::<I>(value) {
        return Ok(());
    }
    for item in I::walk(value) {
        match item {
            Ok(item) => match items.push(item) {
                Ok(()) => {}
                Err(_) => return Err(OutOfMemory),
            },
            Err(_) => break,
        }
    }
    Ok(())
}

/// Whether no item of a value has a fault.
fn is_whole<I: Listed>(value: &[u8]) -> bool
    ensures { result ≡ is_none (fault_of (values_of I.first 0 value.now)) }
{
    for item in I::walk(value) {
        match item {
            Ok(_) => {}
            Err(_) => return false,
        }
    }
    true
}
