//! The rows of a graph with what is found of them once: the nodes where they end, and the place of each row's end.

ghost use Rattle.std.specs.Prelude.{◌≡◌, ◌<◌, ◌⊎◌, ℕ, length, slice_index_or, IfOk};
ghost use Rattle.std.specs.List.{Contains};
ghost use Rattle.std.specs.List.Sorted.{IsNonDecreasingBy};
ghost use Rattle.spf_tree.specs.declared.row.Row.{Row};
ghost use Rattle.spf_tree.specs.Walks.{start, end};
ghost use Rattle.spf_tree.specs.Search.{IsBounded, IsSearchKept};
ghost use Rattle.spf_tree.specs.Places.{AreEdges, HaveEnds, IsEdge};

use crate::edge::{Edge, Ends};
use crate::edges::{edges_of, moved};
use crate::nodes::{ends, in_order, with_ends};
use crate::row::Row;
use isis_base::OutOfMemory;
use std::alloc::Global;
use std::marker::Model;

/// Rows in order of their starts, and the nodes where they end, in order. Contracts see it as both.
#[derive(Drop, Debug)]
pub struct IndexedRows {
    rows: Vec<Row>,
    nodes: Vec<u64>,
    edges: Vec<Edge>,
}

impl Model for IndexedRows {
    ghost use Rattle.spf_tree.specs.Places.{IndexedOf, IsIndexed};

    ghost Value = { IndexedOf };

    ghost view = { λ i. record { rows = i.rows.items; nodes = i.nodes.items } };

    ghost invariant = { λ i. IsIndexed i.rows.items i.nodes.items i.edges.items };
}

impl IndexedRows {
    /// The rows, and the root and the ends of the rows for nodes.
    pub fn new(alloc: Global, rows: Vec<Row>, root: u64) -> Result<IndexedRows, OutOfMemory>
        requires sorted { IsNonDecreasingBy start rows.items }
        requires bounded { IsBounded rows.items }
        ensures rows { IfOk result (λ indexed. indexed.rows ≡ rows.items) }
        ensures root { IfOk result (λ indexed. Contains indexed.nodes root) }
    {
        let nodes = match ends(alloc, rows.as_slice(), root) {
            Ok(nodes) => in_order(nodes),
            Err(error) => return Err(error),
        };
        let same = Ends { first: 0, last: 0 };
        index(alloc, rows, nodes, &[], &[], same)
    }

    /// Other rows over the same nodes.
    pub fn with_rows(
        &self,
        alloc: Global,
        rows: Vec<Row>,
        same: Ends,
    ) -> Result<IndexedRows, OutOfMemory>
        requires same { HaveEnds self.now.rows rows.items same }
        requires sorted { IsNonDecreasingBy start rows.items }
        requires bounded { IsBounded rows.items }
        requires ends { (row : Row) → Contains rows.items row → Contains self.now.nodes (end row) }
        ensures rows { IfOk result (λ indexed. indexed.rows ≡ rows.items) }
        ensures nodes { IfOk result (λ indexed. indexed.nodes ≡ self.now.nodes) }
    {
        let (old, known) = (self.rows.as_slice(), self.edges.as_slice());
        let nodes = match Vec::from_slice(alloc, self.nodes.as_slice()) {
            Ok(nodes) => nodes,
            Err(_) => return Err(OutOfMemory),
        };
        index(alloc, rows, nodes, old, known, same)
    }

    /// Other rows, each of which ends at a node or where an added row does.
    pub fn with_ends(
        &self,
        alloc: Global,
        rows: Vec<Row>,
        added: &[Row],
        same: Ends,
    ) -> Result<IndexedRows, OutOfMemory>
        requires same { HaveEnds self.now.rows rows.items same }
        requires sorted { IsNonDecreasingBy start rows.items }
        requires bounded { IsBounded rows.items }
        requires ends { (row : Row) → Contains rows.items row
            → Contains self.now.nodes (end row)
            ⊎ ((other : Row) × Contains added.now other × (end other ≡ end row)) }
        ensures rows { IfOk result (λ indexed. indexed.rows ≡ rows.items) }
    {
        let nodes = match with_ends(alloc, &self.nodes, added) {
            Ok(nodes) => nodes,
            Err(error) => return Err(error),
        };
        let known = match moved(alloc, &nodes, &self.nodes, &self.rows, &self.edges) {
            Ok(known) => known,
            Err(error) => return Err(error),
        };
        index(alloc, rows, nodes, &self.rows, &known, same)
    }

    /// The same rows with a node more.
    pub fn with_node(&self, alloc: Global, node: u64) -> Result<IndexedRows, OutOfMemory>
        ensures rows { IfOk result (λ indexed. indexed.rows ≡ self.now.rows) }
        ensures node { IfOk result (λ indexed. Contains indexed.nodes node) }
    {
        match self.rows.clone() {
            Ok(rows) => IndexedRows::new(alloc, rows, node),
            Err(_) => Err(OutOfMemory),
        }
    }

    /// Equal rows and nodes.
    pub fn copy(&self) -> Result<IndexedRows, OutOfMemory>
        ensures { IfOk result (λ copy. copy ≡ self.now) }
    {
        let rows = self.rows.clone()?;
        let nodes = self.nodes.clone()?;
        let edges = self.edges.clone()?;
        Ok(IndexedRows { rows, nodes, edges })
    }

    /// The rows are in order and bounded, the nodes in order, and each row ends at one of them.
    pub fn kept(&self)
        ensures { IsSearchKept self.now.rows self.now.nodes }
    {
        let _rows = self.rows.as_slice();
    }

    /// The rows.
    pub fn rows(&self) -> &[Row]
        ensures { result.now ≡ self.now.rows }
    {
        self.rows.as_slice()
    }

    /// The nodes.
    pub fn nodes(&self) -> &[u64]
        ensures { result.now ≡ self.now.nodes }
    {
        self.nodes.as_slice()
    }

    /// The edge of the row at a place.
    pub fn edge(&self, place: usize) -> Edge
        requires { place < length self.now.rows }
        ensures { (d : Row)
            → IsEdge self.now.nodes (slice_index_or self.now.rows place d) result }
    {
        self.edges[place]
    }
}

/// Finds the edge of each row, by what is known of old rows over the same nodes.
fn index(
    alloc: Global,
    rows: Vec<Row>,
    nodes: Vec<u64>,
    old: &[Row],
    known: &[Edge],
    same: Ends,
) -> Result<IndexedRows, OutOfMemory>
    requires same { HaveEnds old.now rows.items same }
    requires kept { IsSearchKept rows.items nodes.items }
    requires known { AreEdges nodes.items old.now known.now (length old.now) }
    ensures rows { IfOk result (λ indexed. indexed.rows ≡ rows.items) }
    ensures nodes { IfOk result (λ indexed. indexed.nodes ≡ nodes.items) }
{
    match edges_of(alloc, nodes.as_slice(), rows.as_slice(), old, known, same) {
        Ok(edges) => Ok(IndexedRows { rows, nodes, edges }),
        Err(error) => Err(error),
    }
}
