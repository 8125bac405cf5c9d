//! Graphs: the rows that may be walked, and the root.

ghost use Rattle.std.specs.Prelude.{◌≡◌, ◌⊎◌, IfOk};
ghost use Rattle.std.specs.List.{Contains};
ghost use Rattle.std.specs.List.Sorted.{IsNonDecreasingBy, IsStrictlyIncreasing};
ghost use Rattle.spf_tree.specs.declared.row.Row.{Row};
ghost use Rattle.spf_tree.specs.Walks.{start, end};
ghost use Rattle.spf_tree.specs.Search.{IsBounded};
ghost use Rattle.spf_tree.specs.Places.{HaveEnds};

use crate::edge::Ends;
use crate::indexed::IndexedRows;
use crate::node::number;
use crate::nodes::have_ends;
use crate::row::Row;
use isis_base::{NodeId, OutOfMemory};
use std::alloc::Global;
use std::marker::Model;

/// The rows of a level that may be walked, and the root. Contracts see it as both.
#[derive(Drop, Debug)]
pub struct Graph {
    indexed: IndexedRows,
    root: NodeId,
}

impl Model for Graph {
    ghost use Rattle.spf_tree.specs.Graphs.{GraphOf};

    ghost Value = { GraphOf };

    ghost view = { λ g. record { rows = g.indexed.rows; root = g.root } };
}

impl Graph {
    /// The rows, those of one start one after another.
    pub fn rows(&self) -> &[Row]
        ensures { result.now ≡ self.now.rows }
    {
        self.indexed.rows()
    }

    /// The root.
    pub fn root(&self) -> NodeId
        ensures { result ≡ self.now.root }
    {
        self.root
    }

    /// An equal graph.
    pub fn copy(&self) -> Result<Graph, OutOfMemory>
        ensures { IfOk result (λ copy. copy ≡ self.now) }
    {
        let indexed = self.indexed.copy()?;
        Ok(Graph {
            indexed,
            root: self.root,
        })
    }
}

/// The rows with what is found of them once.
pub fn indexed(graph: &Graph) -> &IndexedRows
    ensures { result.now.rows ≡ graph.now.rows }
{
    &graph.indexed
}

/// The rows in order of their starts; there are fewer than 2 ^ 32, of metrics below 2 ^ 32.
pub fn rows_in_order(graph: &Graph) -> &[Row]
    ensures same { result.now ≡ graph.now.rows }
    ensures sorted { IsNonDecreasingBy start result.now }
    ensures bounded { IsBounded result.now }
{
    graph.indexed.kept();
    graph.indexed.rows()
}

/// The nodes in order, among them the end of each row.
pub fn nodes_in_order(graph: &Graph) -> &[u64]
    ensures rising { IsStrictlyIncreasing result.now }
    ensures ends { (row : Row) → Contains graph.now.rows row → Contains result.now (end row) }
{
    graph.indexed.kept();
    graph.indexed.nodes()
}

/// The graph of rows in order.
pub fn graph_of(alloc: Global, rows: Vec<Row>, root: NodeId) -> Result<Graph, OutOfMemory>
    requires sorted { IsNonDecreasingBy start rows.items }
    requires bounded { IsBounded rows.items }
    ensures { IfOk result (λ graph. (graph.rows ≡ rows.items) × (graph.root ≡ root)) }
{
    match IndexedRows::new(alloc, rows, number(root)) {
        Ok(indexed) => Ok(Graph { indexed, root }),
        Err(error) => Err(error),
    }
}

/// The graph of rows in order each of which ends where a row of this graph does, or an added one, and of which so many at the
/// ends are this graph's. Where an added row ends
/// at a new node, the places of the other nodes move. All nodes are looked for anew only where at most of them no row ends
/// any more.
pub fn with_rows(
    alloc: Global,
    graph: &Graph,
    rows: Vec<Row>,
    added: &[Row],
    same: Ends,
) -> Result<Graph, OutOfMemory>
    requires same { HaveEnds graph.now.rows rows.items same }
    requires sorted { IsNonDecreasingBy start rows.items }
    requires bounded { IsBounded rows.items }
    requires ends { (row : Row) → Contains rows.items row
        → (other : Row) × (Contains graph.now.rows other ⊎ Contains added.now other)
        × (end other ≡ end row) }
    ensures { IfOk result (λ g. (g.rows ≡ rows.items) × (g.root ≡ graph.now.root)) }
{
    let root = graph.root;
    graph.indexed.kept();
    if have_ends(graph.indexed.nodes(), added) {
        return match graph.indexed.with_rows(alloc, rows, same) {
            Ok(indexed) => Ok(Graph { indexed, root }),
            Err(error) => Err(error),
        };
    }
    if graph.indexed.nodes().len() / 2 > rows.len() {
        return graph_of(alloc, rows, root);
    }
    match graph.indexed.with_ends(alloc, rows, added, same) {
        Ok(indexed) => Ok(Graph { indexed, root }),
        Err(error) => Err(error),
    }
}
