//! Where the rows of each node stand.

ghost use Rattle.std.specs.Prelude.{◌≡◌, ◌≤◌, ◌<◌, ℕ, length, slice_index_or, IfOk};
ghost use Rattle.std.specs.List.Sorted.{IsNonDecreasingBy, IsStrictlyIncreasing};
ghost use Rattle.spf_tree.specs.declared.row.Row.{Row};
ghost use Rattle.spf_tree.specs.Walks.{start};
ghost use Rattle.spf_tree.specs.Places.{AreSpans, IsFirst, IsSpan};

use crate::edge::Span;
use crate::node::number;
use crate::row::Row;
use isis_base::OutOfMemory;
use std::alloc::Global;

/// The span of each node, by one walk over the rows.
pub fn spans_of(alloc: Global, nodes: &[u64], rows: &[Row]) -> Result<Vec<Span>, OutOfMemory>
    requires rising { IsStrictlyIncreasing nodes.now }
    requires sorted { IsNonDecreasingBy start rows.now }
    ensures { IfOk result (λ spans. AreSpans nodes.now rows.now spans.items (length nodes.now)) }
{
    let mut spans = match Vec::with_capacity(alloc, nodes.len()) {
        Ok(spans) => spans,
        Err(_) => return Err(OutOfMemory),
    };
    let mut from = 0;
    for place in 0..nodes.len() {
        let span = span_from(rows, from, nodes[place]);
        match spans.push(span) {
            Ok(()) => {}
            Err(_) => return Err(OutOfMemory),
        }
        from = span.past;
    }
    Ok(spans)
}

/// The span of a node, none of whose rows stands before a place.
fn span_from(rows: &[Row], from: usize, node: u64) -> Span
    requires sorted { IsNonDecreasingBy start rows.now }
    requires within { from ≤ length rows.now }
    requires below { (k : ℕ) (d : Row) → k < from → start (slice_index_or rows.now k d) < node }
    ensures { IsSpan rows.now node result }
{
    let first = first_from(rows, from, node);
    let past = past_from(rows, first, node);
    Span { first, past }
}

/// The place of the first row, from a place on, that doesn't start below the node.
fn first_from(rows: &[Row], from: usize, node: u64) -> usize
    requires sorted { IsNonDecreasingBy start rows.now }
    requires within { from ≤ length rows.now }
    requires below { (k : ℕ) (d : Row) → k < from → start (slice_index_or rows.now k d) < node }
    ensures { IsFirst rows.now result node }
{
    let mut place = from;
    while place < rows.len() && number(rows[place].from) < node {
        place += 1;
    }
    place
}

/// The place of the first row, from the node's first on, that starts above the node.
fn past_from(rows: &[Row], first: usize, node: u64) -> usize
    requires sorted { IsNonDecreasingBy start rows.now }
    requires first { IsFirst rows.now first node }
    ensures order { first ≤ result }
    ensures within { result ≤ length rows.now }
    ensures here { (k : ℕ) (d : Row) → k < result → start (slice_index_or rows.now k d) ≤ node }
    ensures above { (k : ℕ) (d : Row) → result ≤ k → k < length rows.now
        → node < start (slice_index_or rows.now k d) }
{
    let mut place = first;
    while place < rows.len() && number(rows[place].from) <= node {
        place += 1;
    }
    place
}
