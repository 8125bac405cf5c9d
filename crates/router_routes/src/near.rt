//! The rows that start or end at one node (own).
ghost use Rattle.std.specs.Prelude.{◌≡◌, ◌++◌, ◌∷◌, [], if◌then◌else◌, filter, map, IfOk, OnOk};
ghost use Rattle.std.specs.List.{flat_map};
ghost use Rattle.std.specs.List.Sorted.{IsPermutation, IsNonDecreasingBy};
ghost use Rattle.isis_base.specs.declared.identifiers.NodeId as node_id;
ghost use Rattle.spf_tree.specs.Nodes.{node_number};
ghost use Rattle.spf_tree.specs.Graphs.{is_overloaded};
ghost use Rattle.lsp_view.specs.Lsps.{entries_in};
ghost use Rattle.lsp_view.specs.Views.{rows_in, overloaded_in};
ghost use Rattle.router_routes.specs.Told.{told_in};
ghost use Rattle.router_routes.specs.Moved.{IsFit, IsListing, told_of, told_with};
ghost use Rattle.router_routes.specs.Near.{touches, rows_from, rows_to, other_ends, is_first, once_each, AreEnds, near_rows, near_overloaded, IsNear};

use crate::view::{LevelView, lsps_at};
use isis_base::laws::lsp_id_law;
use isis_base::{LspId, NodeId, OutOfMemory};
use lsp_view::Lsps;
use spf_tree::parts::number;
use spf_tree::{Graph, Row, usable};
use std::alloc::Global;

/// The graph of the rows that may be walked and that start or end at a node, where its LSPs are those
/// aside, and all others are read as before. It reads the LSPs of the node and of its neighbours
/// alone.
pub(crate) fn graph_near(
    alloc: Global,
    before: &LevelView<'_>,
    node: NodeId,
    aside: Lsps<'_>,
    root: NodeId,
) -> Result<Graph, OutOfMemory>
    requires fit { IsFit before.now }
    requires told { IsListing (told_of before.now) }
    ensures { IfOk result (λ graph. IsNear
        (told_with node (told_of before.now) (told_in (entries_in aside.entry))) root node graph) }
{
    aside.kept();
    let mut rows = rows_from(alloc, aside, node)?;
    let ends = ends_beside(alloc, rows.as_slice(), number(node))?;
    add_rows_to(alloc, &mut rows, before, number(node), ends.as_slice())?;
    let nodes = overloaded_near(alloc, before, node, aside, ends.as_slice())?;
    if rows.len() > 0xffff_ffff {
        return Err(OutOfMemory);
    }
    usable(alloc, rows.as_slice(), nodes.as_slice(), root)
}

/// Those of some rows that start or end at a node.
pub(crate) fn touching(alloc: Global, rows: &[Row], node: u64) -> Result<Vec<Row>, OutOfMemory>
    ensures { IfOk result (λ kept. kept.items ≡ filter (touches node) rows.now) }
{
    let mut kept = Vec::new(alloc);
    for row in rows {
        if touches(node, row) {
            match kept.push(*row) {
                Ok(()) => {}
                Err(_) => return Err(OutOfMemory),
            }
        }
    }
    Ok(kept)
}

/// Whether a row starts or ends at a node.
fn touches(node: u64, row: &Row) -> bool
    ensures { result ≡ touches node row.now }
{
    number(row.from) == node || number(row.to) == node
}

/// The rows that a node lists.
fn rows_from(alloc: Global, lsps: Lsps<'_>, node: NodeId) -> Result<Vec<Row>, OutOfMemory>
    ensures { IfOk result (λ rows. rows.items
        ≡ rows_from (node_number node) (rows_in (told_in (entries_in lsps.entry)))) }
{
    lsp_id_law(LspId { node, number: 255 });
    lsps.kept();
    lsps.rows_at(alloc, node)
}

/// The rows that a node lists, where its LSPs are read.
fn rows_read(alloc: Global, level: &LevelView<'_>, node: NodeId) -> Result<Vec<Row>, OutOfMemory>
    requires fit { IsFit level.now }
    requires told { IsListing (told_of level.now) }
    ensures { IfOk result (λ rows. rows.items
        ≡ rows_from (node_number node) (rows_in (told_of level.now))) }
{
    let lsps = lsps_at(level, node);
    lsps.kept();
    rows_from(alloc, lsps, node)
}

/// Whether a node is overloaded, where its LSPs are read.
fn is_over_read(level: &LevelView<'_>, node: NodeId) -> bool
    requires fit { IsFit level.now }
    ensures { result ≡ is_overloaded (overloaded_in (told_of level.now)) (node_number node) }
{
    is_over(lsps_at(level, node), node)
}

/// Whether a node is overloaded.
fn is_over(lsps: Lsps<'_>, node: NodeId) -> bool
    ensures { result
        ≡ is_overloaded (overloaded_in (told_in (entries_in lsps.entry))) (node_number node) }
{
    lsp_id_law(LspId { node, number: 0 });
    lsps.kept();
    lsps.is_overloaded_at(node)
}

/// The ends of some rows beside the node, each once.
fn ends_beside(alloc: Global, rows: &[Row], node: u64) -> Result<Vec<NodeId>, OutOfMemory>
    ensures { IfOk result (λ ends. AreEnds node rows.now ends.items) }
{
    let ends = in_order(other_ends(alloc, rows, node)?);
    once_each(alloc, ends.as_slice())
}

/// The ends of some rows beside the node.
fn other_ends(alloc: Global, rows: &[Row], node: u64) -> Result<Vec<NodeId>, OutOfMemory>
    ensures { IfOk result (λ ends. ends.items ≡ other_ends node rows.now) }
{
    let mut ends = Vec::new(alloc);
    for row in rows {
        if number(row.to) != node {
            match ends.push(row.to) {
                Ok(()) => {}
                Err(_) => return Err(OutOfMemory),
            }
        }
    }
    Ok(ends)
}

/// Nodes in order.
fn in_order(mut nodes: Vec<NodeId>) -> Vec<NodeId>
    ensures moved { IsPermutation nodes.items result.items }
    ensures sorted { IsNonDecreasingBy node_number result.items }
{
    nodes.sort_unstable_by_key(|node| number(*node));
    nodes
}

/// Each of some nodes in order once.
fn once_each(alloc: Global, nodes: &[NodeId]) -> Result<Vec<NodeId>, OutOfMemory>
    ensures { IfOk result (λ once. once.items ≡ once_each nodes.now) }
{
    let mut once = Vec::new(alloc);
    for place in 0..nodes.len() {
        if !is_first(nodes[place], &nodes[place + 1..]) {
            match once.push(nodes[place]) {
                Ok(()) => {}
                Err(_) => return Err(OutOfMemory),
            }
        }
    }
    Ok(once)
}

/// Whether the first of these nodes is the node.
fn is_first(node: NodeId, nodes: &[NodeId]) -> bool
    ensures { result ≡ is_first node nodes.now }
{
    match nodes {
        [] => false,
        [first, ..] => number(node) == number(*first),
    }
}

/// Adds the rows that lead to a node from some others.
#[tactic(auto, unfolding(crate::specs::Near::near_rows))]
fn add_rows_to(
    alloc: Global,
    rows: &mut Vec<Row>,
    before: &LevelView<'_>,
    node: u64,
    ends: &[NodeId],
) -> Result<(), OutOfMemory>
    requires fit { IsFit before.now }
    requires told { IsListing (told_of before.now) }
    ensures { OnOk result (rows.new.items
        ≡ near_rows node rows.old.items ends.now (rows_in (told_of before.now))) }
{
    for end in ends {
        let listed = match rows_read(alloc, before, *end) {
            Ok(listed) => listed,
            Err(error) => return Err(error),
        };
        match add_leading(rows, listed.as_slice(), node) {
            Ok(()) => {}
            Err(error) => return Err(error),
        }
    }
    Ok(())
}

/// Adds those of some rows that lead to a node.
fn add_leading(rows: &mut Vec<Row>, listed: &[Row], node: u64) -> Result<(), OutOfMemory>
    ensures { OnOk result (rows.new.items ≡ rows.old.items ++ rows_to node listed.now) }
{
    for row in listed {
        if number(row.to) == node {
            match rows.push(*row) {
                Ok(()) => {}
                Err(_) => return Err(OutOfMemory),
            }
        }
    }
    Ok(())
}

/// A node where it is overloaded, and those of some others that are.
#[tactic(auto, unfolding(crate::specs::Near::near_overloaded))]
fn overloaded_near(
    alloc: Global,
    before: &LevelView<'_>,
    node: NodeId,
    aside: Lsps<'_>,
    ends: &[NodeId],
) -> Result<Vec<NodeId>, OutOfMemory>
    requires { IsFit before.now }
    ensures { IfOk result (λ nodes. nodes.items ≡ near_overloaded node
        (is_overloaded (overloaded_in (told_in (entries_in aside.entry))) (node_number node)) ends.now
        (overloaded_in (told_of before.now))) }
{
    let mut nodes = Vec::new(alloc);
    add_overloaded(&mut nodes, aside, node)?;
    add_all_overloaded(&mut nodes, before, ends)?;
    Ok(nodes)
}

/// Adds a node where it is overloaded.
fn add_overloaded(nodes: &mut Vec<NodeId>, lsps: Lsps<'_>, node: NodeId) -> Result<(), OutOfMemory>
    ensures { OnOk result (nodes.new.items ≡ nodes.old.items
        ++ (if is_overloaded (overloaded_in (told_in (entries_in lsps.entry))) (node_number node)
        then node ∷ [] else [])) }
{
    if !is_over(lsps, node) {
        return Ok(());
    }
    match nodes.push(node) {
        Ok(()) => Ok(()),
        Err(_) => Err(OutOfMemory),
    }
}

/// Adds those of some nodes that are overloaded.
fn add_all_overloaded(
    nodes: &mut Vec<NodeId>,
    before: &LevelView<'_>,
    ends: &[NodeId],
) -> Result<(), OutOfMemory>
    requires { IsFit before.now }
    ensures { OnOk result (nodes.new.items ≡ nodes.old.items ++ filter (λ (end : node_id.NodeId).
        is_overloaded (overloaded_in (told_of before.now)) (node_number end)) ends.now) }
{
    for end in ends {
        if is_over_read(before, *end) {
            match nodes.push(*end) {
                Ok(()) => {}
                Err(_) => return Err(OutOfMemory),
            }
        }
    }
    Ok(())
}
