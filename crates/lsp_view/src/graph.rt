//! Who lists whom, and which nodes are overloaded (ISO 10589 7.2.5, 7.2.8.1).
ghost use Rattle.std.specs.Prelude.{◌≡◌, ◌++◌, map, IfOk, OnOk};
ghost use Rattle.isis_tlv.specs.declared.neighbour.NeighbourItem.{NeighbourItem};
ghost use Rattle.lsp_view.specs.Bodies.{neighbours_in};
ghost use Rattle.lsp_view.specs.Lsps.{entries_in};
ghost use Rattle.lsp_view.specs.Views.{row_from, rows_in, rows_at, lead_of, is_overloaded, overloaded_in, overload_at};

use crate::body::add_items;
use crate::flags::has_overload;
use crate::lsps::Lsps;
use isis_base::{LspId, NodeId, OutOfMemory};
use isis_tlv::NeighbourItem;
use isis_tlv::codes::NEIGHBOURS;
use lsp_store::{Entry, Store, is_live};
use spf_tree::Row;
use std::alloc::Global;

/// A row for each neighbour that a live LSP lists whose node's number 0 is held live, in the order of LSP ID and place.
pub fn rows(alloc: Global, store: &Store) -> Result<Vec<Row>, OutOfMemory>
    ensures { IfOk result (λ rows. rows.items ≡ rows_in store.now.entries) }
{
    Lsps::of(store).rows(alloc)
}

/// The nodes whose live number 0 has the overload bit, in order.
pub fn overloaded(alloc: Global, store: &Store) -> Result<Vec<NodeId>, OutOfMemory>
    ensures { IfOk result (λ nodes. nodes.items ≡ overloaded_in store.now.entries) }
{
    Lsps::of(store).overloaded(alloc)
}

impl<'a> Lsps<'a> {
    /// A row for each neighbour that a live LSP lists whose node's number 0 is live, in the order of LSP ID and place.
    #[tactic(auto, unfolding(crate::specs::Views::rows_in))]
    pub fn rows(&self, alloc: Global) -> Result<Vec<Row>, OutOfMemory>
        ensures { IfOk result (λ rows. rows.items ≡ rows_in (entries_in self.now)) }
    {
        let mut rows = Vec::new(alloc);
        let mut items = Vec::new(alloc);
        for (id, entry) in self.iter() {
            if is_live(entry) && self.lead(id.node).is_some() {
                match add_rows(&mut items, &mut rows, id.node, entry.octets.as_slice()) {
                    Ok(()) => {}
                    Err(error) => return Err(error),
                }
            }
        }
        Ok(rows)
    }

    /// The rows that the live LSPs of one node list, where its number 0 is live, in the order of LSP ID and place.
    #[tactic(auto, unfolding(crate::specs::Views::rows_at))]
    pub fn rows_at(&self, alloc: Global, node: NodeId) -> Result<Vec<Row>, OutOfMemory>
        ensures { IfOk result (λ rows. rows.items ≡ rows_at (entries_in self.now) node) }
    {
        let mut rows = Vec::new(alloc);
        let mut items = Vec::new(alloc);
        if self.lead(node).is_none() {
            return Ok(rows);
        }
        let (first, last) = (LspId { node, number: 0 }, LspId { node, number: 255 });
        for (id, entry) in self.range(first, last) {
            if is_live(entry) {
                match add_rows(&mut items, &mut rows, id.node, entry.octets.as_slice()) {
                    Ok(()) => {}
                    Err(error) => return Err(error),
                }
            }
        }
        Ok(rows)
    }

    /// The nodes whose live number 0 has the overload bit, in order.
    #[tactic(auto, unfolding(crate::specs::Views::overloaded_in))]
    pub fn overloaded(&self, alloc: Global) -> Result<Vec<NodeId>, OutOfMemory>
        ensures { IfOk result (λ nodes. nodes.items ≡ overloaded_in (entries_in self.now)) }
    {
        let mut nodes = Vec::new(alloc);
        for (id, entry) in self.iter() {
            if is_live(entry) && is_overloaded(id, entry) {
                match nodes.push(id.node) {
                    Ok(()) => {}
                    Err(_) => return Err(OutOfMemory),
                }
            }
        }
        Ok(nodes)
    }

    /// Whether a node's live number 0 has the overload bit. It takes no memory.
    pub fn is_overloaded_at(&self, node: NodeId) -> bool
        ensures { result ≡ overload_at (lead_of (entries_in self.now) node) }
    {
        match self.lead(node) {
            Some(entry) => has_overload(entry.flags),
            None => false,
        }
    }
}

/// Adds the rows that the octets of a node's LSP list. The list of items is room that is used again.
fn add_rows(
    items: &mut Vec<NeighbourItem>,
    rows: &mut Vec<Row>,
    node: NodeId,
    octets: &[u8],
) -> Result<(), OutOfMemory>
    ensures { OnOk result (rows.new.items
        ≡ rows.old.items ++ map (row_from node) (neighbours_in octets.now)) }
{
    items.clear();
    match add_items::<NeighbourItem>(items, NEIGHBOURS, octets) {
        Ok(()) => {}
        Err(error) => return Err(error),
    }
    add_items_of(rows, node, items.as_slice())
}

/// Adds the rows from a node to some neighbours.
fn add_items_of(
    rows: &mut Vec<Row>,
    node: NodeId,
    items: &[NeighbourItem],
) -> Result<(), OutOfMemory>
    ensures { OnOk result (rows.new.items ≡ rows.old.items ++ map (row_from node) items.now) }
{
    for item in items {
        let row = Row {
            from: node,
            to: item.node,
            metric: item.metric,
        };
        match rows.push(row) {
            Ok(()) => {}
            Err(_) => return Err(OutOfMemory),
        }
    }
    Ok(())
}

/// Whether an LSP is a number 0 with the overload bit (ISO 10589 9.8).
fn is_overloaded(id: LspId, entry: &Entry) -> bool
    ensures { result ≡ is_overloaded (id, entry.now) }
{
    id.number == 0 && has_overload(entry.flags)
}
