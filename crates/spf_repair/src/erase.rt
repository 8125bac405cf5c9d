//! Costs given up: those that may hang on a removed row.

ghost use Rattle.std.specs.Prelude.{◌≡◌, ◌≢◌, ◌<◌, ◌≤◌, ◌+◌, ℕ, true, false, [], is_some, length, slice_index_or, OnOk};
ghost use Rattle.std.specs.Bool.{MatchBool};
ghost use Rattle.std.specs.List.{Contains};
ghost use Rattle.std.specs.List.Sorted.{IsNonDecreasingBy};
ghost use Rattle.spf_tree.specs.declared.row.Row.{Row};
ghost use Rattle.spf_tree.specs.Labels.{names};
ghost use Rattle.spf_tree.specs.Walks.{start, end};
ghost use Rattle.spf_tree.specs.Labels.{at};
ghost use Rattle.spf_repair.specs.Erase.{IsMarked, HaveGrown, Hangs, HasParallel, IsStruck, IsErasing, IsClosed, HereHangs};

use crate::steps::Steps;
use isis_base::OutOfMemory;
use spf_tree::Row;
use spf_tree::parts::{Labels, first_row, is_step, number};
use std::sync::ledger::Ledger;

/// Marks a node and adds it to the list, unless it is marked.
fn mark(root: u64, node: u64, marks: &mut Labels, nodes: &mut Vec<u64>) -> Result<(), OutOfMemory>
    requires named { Contains (names marks.old) node }
    requires not_root { node ≢ root }
    ensures grown { OnOk result
        (HaveGrown root marks.old nodes.old.items marks.new nodes.new.items) }
    ensures marked { OnOk result (IsMarked marks.new node) }
{
    if marks.get(node).is_some() {
        return Ok(());
    }
    match nodes.push(node) {
        Ok(()) => {}
        Err(_) => return Err(OutOfMemory),
    }
    marks.set(node, 0);
    Ok(())
}

/// Whether the end's label may hang on the start's.
fn hangs(labels: &Labels, node: u64, to: u64, metric: u32) -> bool
    ensures { MatchBool result (Hangs labels.now node to metric) (Hangs labels.now node to metric
        → ⊥) }
{
    let Some(first) = labels.get(node) else {
        return false;
    };
    let Some(second) = labels.get(to) else {
        return false;
    };
    let Some(sum) = first.checked_add(u64::from(metric)) else {
        return false;
    };
    sum <= second
}

/// Whether a row with these ends and no greater metric is there.
fn has_parallel(rows: &[Row], from: u64, to: u64, metric: u32) -> bool
    requires { IsNonDecreasingBy start rows.now }
    ensures { MatchBool result (HasParallel rows.now from to metric)
        (HasParallel rows.now from to metric → ⊥) }
{
    for place in first_row(rows, from)..rows.len() {
        let row = rows[place];
        if number(row.from) != from {
            return false;
        }
        if number(row.to) == to && row.metric <= metric {
            return true;
        }
    }
    false
}

/// Marks the end of a row where its label may hang on the start's.
fn hang(
    old: &Labels,
    root: u64,
    node: u64,
    to: u64,
    metric: u32,
    marks: &mut Labels,
    nodes: &mut Vec<u64>,
) -> Result<(), OutOfMemory>
    requires { names marks.old ≡ names old.now }
    ensures grown { OnOk result
        (HaveGrown root marks.old nodes.old.items marks.new nodes.new.items) }
    ensures marked { OnOk result (to ≢ root → Hangs old.now node to metric
        → IsMarked marks.new to) }
{
    if to == root {
        return Ok(());
    }
    if !hangs(old, node, to, metric) {
        return Ok(());
    }
    match mark(root, to, marks, nodes) {
        Ok(()) => Ok(()),
        Err(error) => Err(error),
    }
}

/// Marks what may hang on a node.
fn spread_hang(
    rows: &[Row],
    root: u64,
    old: &Labels,
    node: u64,
    marks: &mut Labels,
    nodes: &mut Vec<u64>,
) -> Result<(), OutOfMemory>
    requires sorted { IsNonDecreasingBy start rows.now }
    requires named { names marks.old ≡ names old.now }
    ensures grown { OnOk result
        (HaveGrown root marks.old nodes.old.items marks.new nodes.new.items) }
    ensures here { OnOk result (HereHangs rows.now root old.now node marks.new (length rows.now)) }
{
    for place in first_row(rows, node)..rows.len() {
        let row = rows[place];
        if number(row.from) != node {
            return Ok(());
        }
        match hang(old, root, node, number(row.to), row.metric, marks, nodes) {
            Ok(()) => {}
            Err(error) => return Err(error),
        }
    }
    Ok(())
}

/// Marks what may hang on marked nodes.
pub fn erase(
    rows: &[Row],
    root: u64,
    old: &Labels,
    marks: &mut Labels,
    nodes: &mut Vec<u64>,
) -> Result<(), OutOfMemory>
    requires sorted { IsNonDecreasingBy start rows.now }
    requires named { names marks.old ≡ names old.now }
    requires inside { (node : ℕ) → IsMarked marks.old node → Contains nodes.old.items node }
    requires not_root { is_some (at marks.old root) ≡ false }
    ensures names { OnOk result (names marks.new ≡ names marks.old) }
    ensures closed { OnOk result (IsClosed rows.now root old.now marks.new) }
    ensures kept { OnOk result ((node : ℕ) → IsMarked marks.old node → IsMarked marks.new node) }
    ensures inside { OnOk result ((node : ℕ) → IsMarked marks.new node
        → Contains nodes.new.items node) }
    ensures spared { OnOk result (nodes.old.items ≡ [] → marks.new ≡ marks.old) }
{
    let mut many = 0;
    while many < nodes.len() {
        let node = nodes[many];
        match spread_hang(rows, root, old, node, marks, nodes) {
            Ok(()) => {}
            Err(error) => return Err(error),
        }
        many += 1;
    }
    Ok(())
}

/// Marks the end of a removed row where a least walk may have used the row and no other takes its place.
fn strike(
    rows: &[Row],
    root: u64,
    old: &Labels,
    row: &Row,
    marks: &mut Labels,
    nodes: &mut Vec<u64>,
) -> Result<(), OutOfMemory>
    requires sorted { IsNonDecreasingBy start rows.now }
    requires named { names marks.old ≡ names old.now }
    ensures grown { OnOk result
        (HaveGrown root marks.old nodes.old.items marks.new nodes.new.items) }
    ensures struck { OnOk result (IsStruck rows.now root old.now marks.new row.now) }
    ensures spared { OnOk result (HasParallel rows.now (start row.now) (end row.now) row.now.metric
        → (marks.new ≡ marks.old) × (nodes.new.items ≡ nodes.old.items)) }
{
    let (from, to, metric) = (number(row.from), number(row.to), row.metric);
    if to == root {
        return Ok(());
    }
    if !is_step(old, from, to, metric) {
        return Ok(());
    }
    if has_parallel(rows, from, to, metric) {
        return Ok(());
    }
    match mark(root, to, marks, nodes) {
        Ok(()) => Ok(()),
        Err(error) => Err(error),
    }
}

/// Strikes each removed row.
pub fn strike_all<L: Ledger>(
    rows: &[Row],
    root: u64,
    old: &Labels,
    removed: &[Row],
    marks: &mut Labels,
    nodes: &mut Vec<u64>,
    steps: &mut Steps<L>,
) -> Result<(), OutOfMemory>
    requires sorted { IsNonDecreasingBy start rows.now }
    requires named { names marks.old ≡ names old.now }
    ensures grown { OnOk result
        (HaveGrown root marks.old nodes.old.items marks.new nodes.new.items) }
    ensures struck { OnOk result ((row : Row) → Contains removed.now row
        → IsStruck rows.now root old.now marks.new row) }
    ensures spared { OnOk result
        (((row : Row) → Contains removed.now row
        → HasParallel rows.now (start row) (end row) row.metric)
        → (marks.new ≡ marks.old) × (nodes.new.items ≡ nodes.old.items)) }
    ensures steps { OnOk result (steps.new ≡ steps.old + length removed.now) }
{
    for place in 0..removed.len() {
        steps.tick();
        match strike(rows, root, old, &removed[place], marks, nodes) {
            Ok(()) => {}
            Err(error) => return Err(error),
        }
    }
    Ok(())
}
