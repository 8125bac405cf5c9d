//! The costs after a change, from those before it.

ghost use Rattle.std.specs.Prelude.{◌≡◌, ◌+◌, ℕ, false, length, is_some, Some, IfOk};
ghost use Rattle.std.specs.List.{Contains};
ghost use Rattle.spf_tree.specs.declared.row.Row.{Row};
ghost use Rattle.spf_tree.specs.Walks.{start, end, AreLeast};
ghost use Rattle.spf_tree.specs.Labels.{at, names};
ghost use Rattle.spf_repair.specs.Erase.{HasParallel};
ghost use Rattle.spf_repair.specs.Change.{AreChanged, IsBound};

use crate::erase::{erase, strike_all};
use crate::feed::{feed_added, feed_given_up};
use crate::settling::relabel;
use crate::steps::Steps;
use isis_base::OutOfMemory;
use spf_tree::parts::{IndexedRows, Labels, Queue, indexed, is_among};
use spf_tree::{Graph, Row};
use std::alloc::Global;
use std::sync::ledger::Ledger;

/// The least costs in a graph, from those before its rows changed.
pub fn repair<L: Ledger>(
    alloc: Global,
    before: &[Row],
    graph: &Graph,
    root: u64,
    old: &Labels,
    removed: &[Row],
    added: &[Row],
    steps: &mut Steps<L>,
) -> Result<Labels, OutOfMemory>
    requires least { AreLeast before.now root (at old.now) }
    requires differ { AreChanged before.now graph.now.rows removed.now added.now }
    ensures least { IfOk result (λ labels. AreLeast graph.now.rows root (at labels)) }
    ensures bound { IfOk result
        (λ labels. ((row : Row) → Contains removed.now row
        → HasParallel graph.now.rows (start row) (end row) row.metric)
        → IsBound (at old.now) (at labels) (length removed.now
        + length added.now) steps.old steps.new) }
{
    let rows = indexed(graph);
    if is_among(rows.nodes(), root) {
        return match repair_among(alloc, before, rows, root, old, removed, added, steps) {
            Ok(labels) => Ok(labels),
            Err(error) => Err(error),
        };
    }
    let rows = match rows.with_node(alloc, root) {
        Ok(rows) => rows,
        Err(error) => return Err(error),
    };
    match repair_among(alloc, before, &rows, root, old, removed, added, steps) {
        Ok(labels) => Ok(labels),
        Err(error) => Err(error),
    }
}

/// The same over rows with their nodes, of which the root is one.
fn repair_among<L: Ledger>(
    alloc: Global,
    before: &[Row],
    indexed: &IndexedRows,
    root: u64,
    old: &Labels,
    removed: &[Row],
    added: &[Row],
    steps: &mut Steps<L>,
) -> Result<Labels, OutOfMemory>
    requires among { Contains indexed.now.nodes root }
    requires least { AreLeast before.now root (at old.now) }
    requires differ { AreChanged before.now indexed.now.rows removed.now added.now }
    ensures least { IfOk result (λ labels. AreLeast indexed.now.rows root (at labels)) }
    ensures bound { IfOk result
        (λ labels. ((row : Row) → Contains removed.now row
        → HasParallel indexed.now.rows (start row) (end row) row.metric)
        → IsBound (at old.now) (at labels) (length removed.now
        + length added.now) steps.old steps.new) }
{
    indexed.kept();
    let rows = indexed.rows();
    let mut marks = match old.blank(alloc) {
        Ok(marks) => marks,
        Err(error) => return Err(error),
    };
    let mut nodes = Vec::new(alloc);
    match strike_all(rows, root, old, removed, &mut marks, &mut nodes, steps) {
        Ok(()) => {}
        Err(error) => return Err(error),
    }
    match erase(rows, root, old, &mut marks, &mut nodes) {
        Ok(()) => {}
        Err(error) => return Err(error),
    }
    let mut labels = match carried(alloc, indexed, old, &marks) {
        Ok(labels) => labels,
        Err(error) => return Err(error),
    };
    let mut queue = Queue::new(alloc);
    match feed_given_up(indexed, root, &labels, nodes.as_slice(), &mut queue) {
        Ok(()) => {}
        Err(error) => return Err(error),
    }
    match feed_added(rows, added, root, &labels, &mut queue, steps) {
        Ok(()) => {}
        Err(error) => return Err(error),
    }
    match relabel(rows, root, &mut labels, &mut queue, steps) {
        Ok(()) => Ok(labels),
        Err(error) => Err(error),
    }
}

/// The old cost of each node, unless it is marked.
fn carried(
    alloc: Global,
    indexed: &IndexedRows,
    old: &Labels,
    marks: &Labels,
) -> Result<Labels, OutOfMemory>
    requires { names marks.now ≡ names old.now }
    ensures names { IfOk result (λ labels. names labels ≡ indexed.now.nodes) }
    ensures from { IfOk result (λ labels. (n c : ℕ) → at labels n ≡ Some c
        → (at old.now n ≡ Some c) × (is_some (at marks.now n) ≡ false)) }
    ensures into { IfOk result (λ labels. (n : ℕ) → Contains (names labels) n
        → is_some (at marks.now n) ≡ false → at labels n ≡ at old.now n) }
{
    indexed.kept();
    match Labels::carried(alloc, indexed.nodes(), old, marks) {
        Ok(labels) => Ok(labels),
        Err(error) => Err(error),
    }
}
