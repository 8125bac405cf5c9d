//! What the first fragment of an LSP begins with.
ghost use Rattle.std.specs.Prelude.{◌≡◌, ◌≤◌, ◌*◌, ◌+◌, [], ◌++◌, length, take, drop, IfOk, OnOk};
ghost use Rattle.isis_tlv.specs.Spelling.{area_octets, area_value, area_tlv};
ghost use Rattle.model_router.specs.Wanted.{some_addresses};
ghost use Rattle.lsp_fragments.specs.Entries as entries;
ghost use Rattle.lsp_fragments.specs.Entries.{address_tlvs};

use crate::content::Content;
use isis_base::{AreaAddress, Octets, OutOfMemory};
use isis_tlv::{put_addresses, put_areas, put_protocols};
use std::alloc::Global;

/// The most addresses that a TLV holds (RFC 1195 5.3).
const ADDRESSES: usize = 63;

/// What fragment 0 begins with: of the system, area addresses, IPv4 and addresses; of a pseudonode,
/// nothing.
pub(crate) fn first_of(alloc: Global, content: &Content) -> Result<Octets, OutOfMemory>
    requires areas { length content.now.areas.items ≤ 3 }
    requires addresses { length content.now.addresses.items ≤ 64 }
    ensures value { IfOk result (λ octets. octets ≡ entries.content_first content.now) }
    ensures short { IfOk result (λ octets. length octets ≤ 400) }
{
    let mut octets = Octets::new(alloc);
    if content.pseudonode {
        return Ok(octets);
    }
    add_areas(&mut octets, &content.areas)?;
    put_protocols(&mut octets)?;
    add_addresses(&mut octets, &content.addresses)?;
    Ok(octets)
}

/// Adds the TLV of area addresses.
fn add_areas(out: &mut Octets, areas: &[AreaAddress]) -> Result<(), OutOfMemory>
    requires { length areas.now ≤ 3 }
    ensures ok { OnOk result (out.new ≡ out.old ++ area_tlv areas.now) }
    ensures short { length (area_value areas.now) ≤ 42 }
{
    // An area address has at most 14 octets with its length, so that the value fits.
    let mut left = areas;
    while let [area, more @ ..] = left {
        size_of(area);
        left = more;
    }
    put_areas(out, areas)
}

/// The number of an area address's octets, with its length.
fn size_of(area: &AreaAddress) -> usize
    ensures size { result ≡ length (area_octets area.now) }
    ensures most { result ≤ 14 }
{
    1 + area.octets().len()
}

/// Adds TLVs of addresses, at most 63 to a TLV.
fn add_addresses(out: &mut Octets, list: &[u32]) -> Result<(), OutOfMemory>
    requires { length list.now ≤ 64 }
    ensures ok { OnOk result (out.new ≡ out.old ++ address_tlvs list.now) }
    ensures short { OnOk result (length (address_tlvs list.now) ≤ 4 + 4 * length list.now) }
{
    add_both(out, list, ADDRESSES.min(list.len()))
}

/// Adds the TLVs of the addresses before a place and of those from it on.
fn add_both(out: &mut Octets, list: &[u32], at: usize) -> Result<(), OutOfMemory>
    requires front { at ≤ 63 }
    requires rest { length list.now ≤ at + 63 }
    requires within { at ≤ length list.now }
    ensures ok { OnOk result (out.new ≡ out.old ++ (some_addresses (take at list.now)
        ++ some_addresses (drop at list.now))) }
    ensures short { OnOk result (length (some_addresses (take at list.now)
        ++ some_addresses (drop at list.now)) ≤ 4 + 4 * length list.now) }
{
    let (front, rest) = list.split_at(at);
    add_some(out, front)?;
    add_some(out, rest)
}

/// Adds the TLV of these addresses, where there are some.
fn add_some(out: &mut Octets, list: &[u32]) -> Result<(), OutOfMemory>
    requires { length list.now ≤ 63 }
    ensures ok { OnOk result (out.new ≡ out.old ++ some_addresses list.now) }
    ensures short { length (some_addresses list.now) ≤ 2 + 4 * length list.now }
{
    if list.is_empty() {
        return Ok(());
    }
    put_addresses(out, list)
}
