//! What one system says: prefixes, area addresses and the attached bit.
ghost use Rattle.std.specs.Prelude.{◌≡◌, ◌++◌, filter, IfOk, OnOk};
ghost use Rattle.lsp_view.specs.Bodies.{prefixes_in};
ghost use Rattle.lsp_view.specs.Lsps.{entries_in};
ghost use Rattle.lsp_view.specs.Views.{own_node, lead_of, is_reachable, reach_in, areas_at, attached_at};

use crate::body::add_items;
use crate::flags::has_attached;
use crate::lsps::Lsps;
use isis_base::numbers::PREFIX_METRIC;
use isis_base::{AreaAddress, LspId, NodeId, OutOfMemory, SystemId};
use isis_tlv::PrefixItem;
use isis_tlv::codes::{AREAS, PREFIXES};
use lsp_store::{Store, is_live};
use std::alloc::Global;

/// The prefixes that the live LSPs of a system list, of a metric that may be reached, where its number 0 is held live; in the
/// order of LSP ID and place.
pub fn reach(alloc: Global, store: &Store, system: SystemId) -> Result<Vec<PrefixItem>, OutOfMemory>
    ensures { IfOk result (λ items. items.items ≡ reach_in store.now.entries system) }
{
    let mut items = Vec::new(alloc);
    let mut listed = Vec::new(alloc);
    match Lsps::of(store).reach_into(&mut items, &mut listed, system) {
        Ok(()) => Ok(items),
        Err(error) => Err(error),
    }
}

/// The area addresses that a system's live number 0 lists.
pub fn area_list(
    alloc: Global,
    store: &Store,
    system: SystemId,
) -> Result<Vec<AreaAddress>, OutOfMemory>
    ensures { IfOk result (λ areas. areas.items
        ≡ areas_at (lead_of store.now.entries (own_node system))) }
{
    Lsps::of(store).area_list(alloc, system)
}

/// Whether a system's live number 0 has the attached bit of the default metric. It takes no memory.
pub fn is_attached(store: &Store, system: SystemId) -> bool
    ensures { result ≡ attached_at (lead_of store.now.entries (own_node system)) }
{
    Lsps::of(store).is_attached(system)
}

impl<'a> Lsps<'a> {
    /// The prefixes that the live LSPs of a system list, as `reach` has them, put into a list in place of what it had. The other
    /// list is room that is used again.
    #[tactic(auto, unfolding(crate::specs::Views::reach_in))]
    pub fn reach_into(
        &self,
        items: &mut Vec<PrefixItem>,
        listed: &mut Vec<PrefixItem>,
        system: SystemId,
    ) -> Result<(), OutOfMemory>
        ensures { OnOk result (items.new.items ≡ reach_in (entries_in self.now) system) }
    {
        let node = own_node(system);
        items.clear();
        if self.lead(node).is_none() {
            return Ok(());
        }
        let (first, last) = (LspId { node, number: 0 }, LspId { node, number: 255 });
        for (_, entry) in self.range(first, last) {
            if is_live(entry) {
                match add_reach(items, listed, entry.octets.as_slice()) {
                    Ok(()) => {}
                    Err(error) => return Err(error),
                }
            }
        }
        Ok(())
    }

    /// The area addresses that a system's live number 0 lists.
    pub fn area_list(
        &self,
        alloc: Global,
        system: SystemId,
    ) -> Result<Vec<AreaAddress>, OutOfMemory>
        ensures { IfOk result (λ areas. areas.items
            ≡ areas_at (lead_of (entries_in self.now) (own_node system))) }
    {
        let mut areas = Vec::new(alloc);
        match self.lead(own_node(system)) {
            Some(entry) => {
                match add_items::<AreaAddress>(&mut areas, AREAS, entry.octets.as_slice()) {
                    Ok(()) => Ok(areas),
                    Err(error) => Err(error),
                }
            }
            None => Ok(areas),
        }
    }

    /// Whether a system's live number 0 has the attached bit of the default metric. It takes no memory.
    pub fn is_attached(&self, system: SystemId) -> bool
        ensures { result ≡ attached_at (lead_of (entries_in self.now) (own_node system)) }
    {
        match self.lead(own_node(system)) {
            Some(entry) => has_attached(entry.flags),
            None => false,
        }
    }
}

/// The node that a system is.
fn own_node(system: SystemId) -> NodeId
    ensures { result ≡ own_node system }
{
    NodeId {
        system,
        pseudonode: 0,
    }
}

/// Adds the prefixes that the octets of an LSP list, of a metric that may be reached.
fn add_reach(
    items: &mut Vec<PrefixItem>,
    listed: &mut Vec<PrefixItem>,
    octets: &[u8],
) -> Result<(), OutOfMemory>
    ensures { OnOk result (items.new.items
        ≡ items.old.items ++ filter is_reachable (prefixes_in octets.now)) }
{
    listed.clear();
    match add_items::<PrefixItem>(listed, PREFIXES, octets) {
        Ok(()) => {}
        Err(error) => return Err(error),
    }
    add_reachable(items, listed.as_slice())
}

/// Adds those of a metric that may be reached.
fn add_reachable(items: &mut Vec<PrefixItem>, listed: &[PrefixItem]) -> Result<(), OutOfMemory>
    ensures { OnOk result (items.new.items ≡ items.old.items ++ filter is_reachable listed.now) }
{
    for item in listed {
        if item.metric <= PREFIX_METRIC {
            match items.push(*item) {
                Ok(()) => {}
                Err(_) => return Err(OutOfMemory),
            }
        }
    }
    Ok(())
}
