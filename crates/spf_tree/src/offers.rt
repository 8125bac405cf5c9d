//! Offers to nodes by their numbers, for the crate that repairs distances.

ghost use Rattle.std.specs.Prelude.{◌≡◌, ◌≤◌, ◌<◌, ◌+◌, ℕ, length, slice_index_or, OnOk};
ghost use Rattle.std.specs.List.Sorted.{IsNonDecreasingBy};
ghost use Rattle.spf_tree.specs.declared.row.Row.{Row};
ghost use Rattle.spf_tree.specs.Walks.{start};
ghost use Rattle.spf_tree.specs.Search.{IsOffered, HaveOffered};

use crate::labels::Labels;
use crate::node::number;
use crate::queue::Queue;
use crate::row::Row;
use isis_base::OutOfMemory;

/// The place of the first row that doesn't start below the node.
pub fn first_row(rows: &[Row], node: u64) -> usize
    requires { IsNonDecreasingBy start rows.now }
    ensures within { result ≤ length rows.now }
    ensures below { (k : ℕ) (d : Row) → k < result → start (slice_index_or rows.now k d) < node }
    ensures above { (k : ℕ) (d : Row) → result ≤ k → k < length rows.now
        → node ≤ start (slice_index_or rows.now k d) }
{
    let (mut low, mut high) = (0, rows.len());
    while low < high {
        let middle = low + (high - low) / 2;
        if number(rows[middle].from) < node {
            low = middle + 1;
        } else {
            high = middle;
        }
    }
    low
}

/// Offers the node the sum of a cost and a metric, unless that is no news.
pub fn offer(
    labels: &Labels,
    root: u64,
    node: u64,
    cost: u64,
    metric: u32,
    queue: &mut Queue,
) -> Result<(), OutOfMemory>
    ensures { OnOk result (IsOffered labels.now root node (cost + metric) queue.old queue.new) }
{
    if node == root {
        return Ok(());
    }
    let Some(sum) = cost.checked_add(u64::from(metric)) else {
        return Ok(());
    };
    if let Some(held) = labels.get(node) {
        if held <= sum {
            return Ok(());
        }
    }
    queue.push(sum, node)
}

/// Offers what the rows from the node give at this cost.
pub fn offer_rows(
    rows: &[Row],
    labels: &Labels,
    root: u64,
    node: u64,
    cost: u64,
    queue: &mut Queue,
) -> Result<(), OutOfMemory>
    requires { IsNonDecreasingBy start rows.now }
    ensures { OnOk result
        (HaveOffered rows.now root labels.now node cost queue.old queue.new (length rows.now)) }
{
    for place in first_row(rows, node)..rows.len() {
        let row = rows[place];
        if number(row.from) != node {
            return Ok(());
        }
        match offer(labels, root, number(row.to), cost, row.metric, queue) {
            Ok(()) => {}
            Err(error) => return Err(error),
        }
    }
    Ok(())
}
