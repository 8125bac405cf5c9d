//! Nodes settled anew, until nothing is offered.

ghost use Rattle.std.specs.Prelude.{◌≡◌, ◌<◌, ◌≤◌, ◌+◌, ◌^◌, ℕ, length, OnOk, IfOk};
ghost use Rattle.std.specs.List.Sorted.{IsNonDecreasingBy};
ghost use Rattle.spf_tree.specs.Labels.{names};
ghost use Rattle.std.specs.Bool.{MatchBool};
ghost use Rattle.spf_tree.specs.Walks.{start, AreLeast, IsWithin};
ghost use Rattle.spf_tree.specs.Search.{IsBounded};
ghost use Rattle.spf_tree.specs.Labels.{at};
ghost use Rattle.spf_tree.specs.Search.{AreNamed};
ghost use Rattle.spf_repair.specs.Repair.{IsLoose, IsOutcome, IsCounted, effort};

use crate::outcome::Outcome;
use crate::steps::Steps;
use isis_base::OutOfMemory;
use spf_tree::Row;
use spf_tree::parts::{Labels, Queue, offer_rows};
use std::sync::ledger::Ledger;

/// Whether the label is at most the cost.
fn is_within(labels: &Labels, node: u64, cost: u64) -> bool
    ensures within { MatchBool result (IsWithin (at labels.now node) cost)
        (IsWithin (at labels.now node) cost → ⊥) }
    ensures fits { cost < 2 ^ 64 }
{
    match labels.get(node) {
        Some(held) => held <= cost,
        None => false,
    }
}

/// Settles the node of the least offer, where that is better than its label.
fn advance(
    rows: &[Row],
    root: u64,
    labels: &mut Labels,
    queue: &mut Queue,
) -> Result<Outcome, OutOfMemory>
    requires sorted { IsNonDecreasingBy start rows.now }
    requires named { AreNamed rows.now root (names labels.old) }
    requires loose { IsLoose rows.now root labels.old queue.old }
    ensures names { names labels.new ≡ names labels.old }
    ensures loose { OnOk result (IsLoose rows.now root labels.new queue.new) }
    ensures moved { IfOk result
        (λ m. IsOutcome m rows.now labels.old labels.new queue.old queue.new) }
{
    let Some((cost, node)) = queue.pop() else {
        return Ok(Outcome::End);
    };
    if is_within(labels, node, cost) {
        return Ok(Outcome::Skipped);
    }
    labels.set(node, cost);
    match offer_rows(rows, labels, root, node, cost, queue) {
        Ok(()) => Ok(Outcome::Settled(cost, node)),
        Err(error) => Err(error),
    }
}

/// Settles nodes until nothing is offered, and counts them.
pub fn relabel<L: Ledger>(
    rows: &[Row],
    root: u64,
    labels: &mut Labels,
    queue: &mut Queue,
    steps: &mut Steps<L>,
) -> Result<(), OutOfMemory>
    requires sorted { IsNonDecreasingBy start rows.now }
    requires bounded { IsBounded rows.now }
    requires named { AreNamed rows.now root (names labels.old) }
    requires loose { IsLoose rows.now root labels.old queue.old }
    ensures names { names labels.new ≡ names labels.old }
    ensures least { OnOk result (AreLeast rows.now root (at labels.new)) }
    ensures counted { OnOk result (IsCounted labels.old labels.new queue.new steps.old steps.new) }
{
    loop {
        match advance(rows, root, labels, queue) {
            Ok(Outcome::End) => return Ok(()),
            Ok(Outcome::Skipped) => {}
            Ok(Outcome::Settled(_, _)) => steps.tick(),
            Err(error) => return Err(error),
        }
    }
}
