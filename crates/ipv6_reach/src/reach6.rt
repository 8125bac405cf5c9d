//! The IPv6 prefixes that one system tells (RFC 5308 2).

ghost use Rattle.std.specs.Prelude.{◌≡◌, ◌++◌, filter, OnOk};
ghost use Rattle.lsp_view.specs.Bodies.{items_in};
ghost use Rattle.lsp_view.specs.Views.{own_node};
ghost use Rattle.ipv6_reach.specs.Items6.{prefix6_at, prefixes6_of};
ghost use Rattle.isis_tlv.specs.Items.{values_of};
ghost use Rattle.ipv6_reach.specs.Reach6.{is_reachable6, reach6_in};

use crate::item6::Prefix6Item;
use crate::items6::prefixes6;
use isis_base::numbers::PREFIX_METRIC;
use isis_base::{LspId, NodeId, OutOfMemory, SystemId};
use isis_tlv::Items;
use lsp_store::Store;
use lsp_view::is_live;
use lsp_view::parts::{Listed, add_items, lead};

/// The code of IPv6 reachability (RFC 5308 2).
const PREFIXES6: u8 = 236;

impl Listed for Prefix6Item {
    fn walk(value: &[u8]) -> Items<'_, Prefix6Item> {
        prefixes6(value)
    }
}

/// The node that a system is.
pub fn own_node(system: SystemId) -> NodeId
    ensures { result ≡ own_node system }
{
    NodeId {
        system,
        pseudonode: 0,
    }
}

/// The prefixes that the live LSPs of a system list, of a metric that may be reached, where its number 0 is held live, put
/// into a list in place of what it had. The other list is room that is used again.
#[tactic(auto, unfolding(crate::specs::Reach6::reach6_in))]
pub fn reach6_into(
    items: &mut Vec<Prefix6Item>,
    listed: &mut Vec<Prefix6Item>,
    store: &Store,
    system: SystemId,
) -> Result<(), OutOfMemory>
    ensures { OnOk result (items.new.items ≡ reach6_in store.now.entries system) }
{
    let node = own_node(system);
    items.clear();
    if lead(store, node).is_none() {
        return Ok(());
    }
    let (first, last) = (LspId { node, number: 0 }, LspId { node, number: 255 });
    for (_, entry) in store.range(first, last) {
        if is_live(entry) {
            match add_reach6(items, listed, entry.octets.as_slice()) {
                Ok(()) => {}
                Err(error) => return Err(error),
            }
        }
    }
    Ok(())
}

/// Adds the prefixes that the octets of an LSP list, of a metric that may be reached.
fn add_reach6(
    items: &mut Vec<Prefix6Item>,
    listed: &mut Vec<Prefix6Item>,
    octets: &[u8],
) -> Result<(), OutOfMemory>
    ensures { OnOk result (items.new.items
        ≡ items.old.items ++ filter is_reachable6 (items_in 236 prefixes6_of octets.now)) }
{
    listed.clear();
    match add_items::<Prefix6Item>(listed, PREFIXES6, octets) {
        Ok(()) => {}
        Err(error) => return Err(error),
    }
    add_reachable6(items, listed.as_slice())
}

/// Adds those of a metric that may be reached.
fn add_reachable6(items: &mut Vec<Prefix6Item>, listed: &[Prefix6Item]) -> Result<(), OutOfMemory>
    ensures { OnOk result (items.new.items ≡ items.old.items ++ filter is_reachable6 listed.now) }
{
    for item in listed {
        if item.metric <= PREFIX_METRIC {
            match items.push(*item) {
                Ok(()) => {}
                Err(_) => return Err(OutOfMemory),
            }
        }
    }
    Ok(())
}
