//! Offers of the rows that came, and of all rows to nodes without a label. Where a row ends is told by the place of that
//! node, so that labels aren't searched.

ghost use Rattle.std.specs.Prelude.{◌≡◌, ◌<◌, ◌+◌, ℕ, length, OnOk};
ghost use Rattle.std.specs.List.{Contains};
ghost use Rattle.spf_tree.specs.declared.row.Row.{Row};
ghost use Rattle.spf_tree.specs.Walks.{start, end};
ghost use Rattle.spf_tree.specs.Labels.{names};
ghost use Rattle.spf_tree.specs.Places.{IsEdge};
ghost use Rattle.spf_repair.specs.Change.{IsAlike};
ghost use Rattle.spf_repair.specs.Feed.{IsOpen, IsGiven, IsGivenIf, IsFed, IsOfferedOn};

use crate::steps::Steps;
use isis_base::OutOfMemory;
use spf_tree::Row;
use spf_tree::parts::{Edge, IndexedRows, Labels, Queue, number, offer};
use std::sync::ledger::Ledger;

/// Offers what a row gives from its start's label.
fn give(labels: &Labels, root: u64, row: &Row, queue: &mut Queue) -> Result<(), OutOfMemory>
    ensures { OnOk result (IsGiven labels.now root row.now queue.old queue.new) }
{
    let Some(cost) = labels.get(number(row.from)) else {
        return Ok(());
    };
    match offer(labels, root, number(row.to), cost, row.metric, queue) {
        Ok(()) => Ok(()),
        Err(error) => Err(error),
    }
}

/// Offers what a row gives where its end has no label.
fn give_open(
    labels: &Labels,
    root: u64,
    row: &Row,
    edge: Edge,
    queue: &mut Queue,
) -> Result<(), OutOfMemory>
    requires { IsEdge (names labels.now) row.now edge }
    ensures { OnOk result (IsGivenIf labels.now root row.now queue.old queue.new) }
{
    if labels.get_at_place(edge.place).is_some() {
        return Ok(());
    }
    match give(labels, root, row, queue) {
        Ok(()) => Ok(()),
        Err(error) => Err(error),
    }
}

/// Offers what the rows give whose ends have no label.
fn feed_open(
    indexed: &IndexedRows,
    root: u64,
    labels: &Labels,
    queue: &mut Queue,
) -> Result<(), OutOfMemory>
    requires names { names labels.now ≡ indexed.now.nodes }
    requires fed { IsFed indexed.now.rows root labels.now queue.old }
    ensures fed { OnOk result (IsFed indexed.now.rows root labels.now queue.new) }
    ensures covers { OnOk result ((row : Row) → Contains indexed.now.rows row
        → IsOpen labels.now (end row) → IsOfferedOn labels.now root queue.new row) }
{
    let rows = indexed.rows();
    for place in 0..rows.len() {
        match give_open(labels, root, &rows[place], indexed.edge(place), queue) {
            Ok(()) => {}
            Err(error) => return Err(error),
        }
    }
    Ok(())
}

/// Offers what the added rows give.
pub fn feed_added<L: Ledger>(
    rows: &[Row],
    added: &[Row],
    root: u64,
    labels: &Labels,
    queue: &mut Queue,
    steps: &mut Steps<L>,
) -> Result<(), OutOfMemory>
    requires fed { IsFed rows.now root labels.now queue.old }
    requires there { (row : Row) → Contains added.now row → IsAlike rows.now row }
    ensures fed { OnOk result (IsFed rows.now root labels.now queue.new) }
    ensures kept { OnOk result ((offer : ℕ × ℕ) → Contains queue.old offer
        → Contains queue.new offer) }
    ensures covers { OnOk result ((row : Row) → Contains added.now row
        → IsOfferedOn labels.now root queue.new row) }
    ensures steps { OnOk result (steps.new ≡ steps.old + length added.now) }
{
    for place in 0..added.len() {
        steps.tick();
        match give(labels, root, &added[place], queue) {
            Ok(()) => {}
            Err(error) => return Err(error),
        }
    }
    Ok(())
}

/// Offers what the rows give that end at a node of a list and without a label, in no time where the list is empty.
pub fn feed_given_up(
    indexed: &IndexedRows,
    root: u64,
    labels: &Labels,
    nodes: &[u64],
    queue: &mut Queue,
) -> Result<(), OutOfMemory>
    requires names { names labels.now ≡ indexed.now.nodes }
    requires fed { IsFed indexed.now.rows root labels.now queue.old }
    ensures fed { OnOk result (IsFed indexed.now.rows root labels.now queue.new) }
    ensures covers { OnOk result ((row : Row) → Contains indexed.now.rows row
        → Contains nodes.now (end row) → IsOpen labels.now (end row)
        → IsOfferedOn labels.now root queue.new row) }
{
    if nodes.len() == 0 {
        return Ok(());
    }
    match feed_open(indexed, root, labels, queue) {
        Ok(()) => Ok(()),
        Err(error) => Err(error),
    }
}
