//! Which rows may be walked.

ghost use Rattle.std.specs.Prelude.{◌≡◌, ◌<◌, ◌≤◌, ◌^◌, ℕ, length, map, take, IfOk};
ghost use Rattle.std.specs.List.{list_any, filter, All};
ghost use Rattle.std.specs.List.Sorted.{IsPermutation, IsSorted, IsNonDecreasingBy};
ghost use Rattle.spf_tree.specs.Walks.{start};
ghost use Rattle.spf_tree.specs.Nodes.{node_number};
ghost use Rattle.spf_tree.specs.declared.row.Row.{Row};
ghost use Rattle.spf_tree.specs.Graphs.{AreUsable};
ghost use Rattle.spf_tree.specs.Pairs.{is_pair, row_passes, ends_of, node_pair, pair_cmp};

use crate::graph::{Graph, graph_of};
use crate::node::number;
use crate::row::Row;
use isis_base::numbers::CIRCUIT_METRIC;
use isis_base::{NodeId, OutOfMemory};
use std::alloc::Global;

/// The ends of each row.
fn pairs_of(alloc: Global, rows: &[Row]) -> Result<Vec<(u64, u64)>, OutOfMemory>
    ensures { IfOk result (λ pairs. pairs.items ≡ map ends_of rows.now) }
{
    let mut pairs = Vec::new(alloc);
    for row in rows {
        match pairs.push((number(row.from), number(row.to))) {
            Ok(()) => {}
            Err(_) => return Err(OutOfMemory),
        }
    }
    Ok(pairs)
}

/// Each node, beside 0.
fn nodes_of(alloc: Global, nodes: &[NodeId]) -> Result<Vec<(u64, u64)>, OutOfMemory>
    ensures { IfOk result (λ pairs. pairs.items ≡ map node_pair nodes.now) }
{
    let mut pairs = Vec::new(alloc);
    for node in nodes {
        match pairs.push((number(*node), 0)) {
            Ok(()) => {}
            Err(_) => return Err(OutOfMemory),
        }
    }
    Ok(pairs)
}

/// The pairs in order.
fn sorted(mut pairs: Vec<(u64, u64)>) -> Vec<(u64, u64)>
    ensures moved { IsPermutation pairs.items result.items }
    ensures sorted { IsSorted pair_cmp result.items }
{
    pairs.sort_unstable();
    pairs
}

/// Whether the pair is there.
fn has_pair(pairs: &[(u64, u64)], a: u64, b: u64) -> bool
    requires { IsSorted pair_cmp pairs.now }
    ensures { result ≡ list_any (is_pair a b) pairs.now }
{
    match pairs.binary_search(&(a, b)) {
        Ok(_) => true,
        Err(_) => false,
    }
}

/// Whether a row may be walked.
fn may_walk(row: &Row, pairs: &[(u64, u64)], overloaded: &[(u64, u64)], root: u64) -> bool
    requires pairs { IsSorted pair_cmp pairs.now }
    requires overloaded { IsSorted pair_cmp overloaded.now }
    ensures { result ≡ row_passes pairs.now overloaded.now root row.now }
{
    let (from, to) = (number(row.from), number(row.to));
    row.metric != CIRCUIT_METRIC
        && has_pair(pairs, to, from)
        && (from == root || !has_pair(overloaded, from, 0))
}

/// A metric fits its type.
fn fits(metric: u32) -> u32
    ensures same { result ≡ metric }
    ensures small { result < 2 ^ 32 }
{
    metric
}

/// A row, whose metric fits its type.
pub fn whole(row: &Row) -> Row
    ensures same { result ≡ row.now }
    ensures small { result.metric < 2 ^ 32 }
{
    let metric = fits(row.metric);
    Row {
        from: row.from,
        to: row.to,
        metric,
    }
}

/// The rows that may be walked.
fn kept(
    alloc: Global,
    rows: &[Row],
    pairs: &[(u64, u64)],
    overloaded: &[(u64, u64)],
    root: u64,
) -> Result<Vec<Row>, OutOfMemory>
    requires pairs { IsSorted pair_cmp pairs.now }
    requires overloaded { IsSorted pair_cmp overloaded.now }
    ensures rows { IfOk result (λ kept. kept.items
        ≡ filter (row_passes pairs.now overloaded.now root) rows.now) }
    ensures small { IfOk result (λ kept. All (λ (row : Row). row.metric < 2 ^ 32) kept.items) }
{
    let mut kept = Vec::new(alloc);
    for place in 0..rows.len() {
        let row = whole(&rows[place]);
        if may_walk(&row, pairs, overloaded, root) {
            match kept.push(row) {
                Ok(()) => {}
                Err(_) => return Err(OutOfMemory),
            }
        }
    }
    Ok(kept)
}

/// The rows in order of their starts, then of their ends and metrics.
pub fn by_start(mut rows: Vec<Row>) -> Vec<Row>
    ensures moved { IsPermutation rows.items result.items }
    ensures sorted { IsNonDecreasingBy start result.items }
{
    rows.sort_unstable_by_key(|row| (number(row.from), number(row.to), row.metric));
    rows
}

/// The graph of the rows that may be walked.
pub fn usable(
    alloc: Global,
    rows: &[Row],
    overloaded: &[NodeId],
    root: NodeId,
) -> Result<Graph, OutOfMemory>
    requires { length rows.now < 2 ^ 32 }
    ensures { IfOk result (λ graph. AreUsable rows.now overloaded.now root graph) }
{
    let pairs = match pairs_of(alloc, rows) {
        Ok(pairs) => sorted(pairs),
        Err(error) => return Err(error),
    };
    let over = match nodes_of(alloc, overloaded) {
        Ok(nodes) => sorted(nodes),
        Err(error) => return Err(error),
    };
    let start = number(root);
    match kept(alloc, rows, pairs.as_slice(), over.as_slice(), start) {
        Ok(kept) => graph_of(alloc, by_start(kept), root),
        Err(error) => Err(error),
    }
}
