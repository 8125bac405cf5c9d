//! The nodes of rows, in order.

ghost use Rattle.std.specs.Prelude.{◌≡◌, ℕ, ◌∷◌, ◌++◌, map, take, IfOk, OnOk};
ghost use Rattle.std.specs.Bool.{OnTrue};
ghost use Rattle.std.specs.List.{Contains};
ghost use Rattle.spf_tree.specs.declared.row.Row.{Row};
ghost use Rattle.std.specs.List.Sorted.{IsStrictlyIncreasing};
ghost use Rattle.spf_tree.specs.Walks.{end};
ghost use Rattle.spf_tree.specs.Labels.{unknown};

use crate::label::Label;
use crate::node::number;
use crate::row::Row;
use isis_base::OutOfMemory;
use std::alloc::Global;

/// The root, and the end of each row.
pub fn ends(alloc: Global, rows: &[Row], root: u64) -> Result<Vec<u64>, OutOfMemory>
    ensures { IfOk result (λ v. v.items ≡ root ∷ map end rows.now) }
{
    let mut nodes = Vec::new(alloc);
    match nodes.push(root) {
        Ok(()) => {}
        Err(_) => return Err(OutOfMemory),
    }
    match add_ends(&mut nodes, rows) {
        Ok(()) => Ok(nodes),
        Err(error) => Err(error),
    }
}

/// The nodes and the end of each row, in order.
pub fn with_ends(alloc: Global, nodes: &[u64], rows: &[Row]) -> Result<Vec<u64>, OutOfMemory>
    ensures rising { IfOk result (λ all. IsStrictlyIncreasing all.items) }
    ensures nodes { IfOk result (λ all. (node : ℕ) → Contains nodes.now node
        → Contains all.items node) }
    ensures ends { IfOk result (λ all. (row : Row) → Contains rows.now row
        → Contains all.items (end row)) }
{
    let mut all = match Vec::from_slice(alloc, nodes) {
        Ok(all) => all,
        Err(_) => return Err(OutOfMemory),
    };
    match add_ends(&mut all, rows) {
        Ok(()) => Ok(in_order(all)),
        Err(error) => Err(error),
    }
}

/// Adds the end of each row.
fn add_ends(nodes: &mut Vec<u64>, rows: &[Row]) -> Result<(), OutOfMemory>
    ensures { OnOk result (nodes.new.items ≡ nodes.old.items ++ map end rows.now) }
{
    for row in rows {
        match nodes.push(number(row.to)) {
            Ok(()) => {}
            Err(_) => return Err(OutOfMemory),
        }
    }
    Ok(())
}

/// The nodes in order, each once.
pub fn in_order(mut nodes: Vec<u64>) -> Vec<u64>
    ensures rising { IsStrictlyIncreasing result.items }
    ensures all { (node : ℕ) → Contains nodes.items node → Contains result.items node }
    ensures none { (node : ℕ) → Contains result.items node → Contains nodes.items node }
{
    nodes.sort_unstable();
    nodes.dedup();
    nodes
}

/// Whether the node is among them.
pub fn is_among(nodes: &[u64], node: u64) -> bool
    ensures { OnTrue result (Contains nodes.now node) }
{
    if let Ok(_) = nodes.binary_search(&node) {
        return true;
    }
    false
}

/// Whether each row ends at one of the nodes.
pub fn have_ends(nodes: &[u64], rows: &[Row]) -> bool
    ensures { OnTrue result ((row : Row) → Contains rows.now row → Contains nodes.now (end row)) }
{
    for place in 0..rows.len() {
        if !is_among(nodes, number(rows[place].to)) {
            return false;
        }
    }
    true
}

/// A label without cost for each node.
pub fn unknown_labels(alloc: Global, nodes: &[u64]) -> Result<Vec<Label>, OutOfMemory>
    ensures { IfOk result (λ v. v.items ≡ map unknown nodes.now) }
{
    let mut labels = match Vec::with_capacity(alloc, nodes.len()) {
        Ok(labels) => labels,
        Err(_) => return Err(OutOfMemory),
    };
    for node in nodes {
        match labels.push(Label {
            node: *node,
            cost: None,
        }) {
            Ok(()) => {}
            Err(_) => return Err(OutOfMemory),
        }
    }
    Ok(labels)
}
