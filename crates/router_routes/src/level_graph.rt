//! The graph of a level (ISO 10589 7.2.5, 7.2.8).
ghost use Rattle.std.specs.Prelude.{◌≡◌, ◌++◌, ℕ, filter, IfOk, OnOk};
ghost use Rattle.isis_base.specs.declared.identifiers.NodeId as node_id;
ghost use Rattle.spf_tree.specs.declared.row.Row as row;
ghost use Rattle.spf_tree.specs.Nodes.{node_number};
ghost use Rattle.spf_tree.specs.Walks.{start};
ghost use Rattle.spf_tree.specs.Graphs.{AreUsable, is_overloaded, times};
ghost use Rattle.lsp_view.specs.Views.{rows_in, overloaded_in};
ghost use Rattle.router_routes.specs.Moved.{IsFit, NodesRise, is_one, told_of};
ghost use Rattle.router_routes.specs.Outlooks.{where_run};

use crate::view::{LevelView, is_one};
use isis_base::{NodeId, OutOfMemory};
use spf_tree::parts::number;
use spf_tree::{Graph, Row, usable};
use std::alloc::Global;

/// The graph of a level: the rows of its live LSPs that may be walked; none where it isn't run.
pub(crate) fn graph_of(
    alloc: Global,
    runs: bool,
    level: &LevelView<'_>,
    root: NodeId,
) -> Result<Graph, OutOfMemory>
    requires { IsFit level.now }
    ensures { IfOk result (λ graph. AreUsable (rows_in (where_run runs (told_of level.now)))
        (overloaded_in (where_run runs (told_of level.now))) root graph) }
{
    if !runs {
        return usable(alloc, &[], &[], root);
    }
    run_graph(alloc, level, root)
}

/// The graph of a level that is run.
fn run_graph(alloc: Global, level: &LevelView<'_>, root: NodeId) -> Result<Graph, OutOfMemory>
    requires { IsFit level.now }
    ensures { IfOk result (λ graph. AreUsable (rows_in (told_of level.now))
        (overloaded_in (told_of level.now)) root graph) }
{
    let rows = rows_told(alloc, level)?;
    let nodes = overloaded_told(alloc, level)?;
    if rows.len() > 0xffff_ffff {
        return Err(OutOfMemory);
    }
    usable(alloc, &rows, &nodes, root)
}

/// The rows of a level's live LSPs, in any order.
fn rows_told(alloc: Global, level: &LevelView<'_>) -> Result<Vec<Row>, OutOfMemory>
    requires { IsFit level.now }
    ensures { IfOk result (λ rows. (x : row.Row)
        → times rows.items x ≡ times (rows_in (told_of level.now)) x) }
{
    let _entries = level.store.len();
    let old = lsp_view::rows(alloc, level.store)?;
    let moved = match level.moved {
        Some(moved) => moved,
        None => return Ok(old),
    };
    let here = moved.aside.rows(alloc)?;
    let mut rows = Vec::new(alloc);
    add_rows(&mut rows, old.as_slice(), moved.nodes, false)?;
    add_rows(&mut rows, here.as_slice(), moved.nodes, true)?;
    Ok(rows)
}

/// Adds the rows that start at one of some nodes, or those that start at none of them.
fn add_rows(
    rows: &mut Vec<Row>,
    more: &[Row],
    nodes: &[NodeId],
    there: bool,
) -> Result<(), OutOfMemory>
    requires { NodesRise 0 nodes.now }
    ensures { OnOk result (rows.new.items ≡ rows.old.items
        ++ filter (λ (r : row.Row). is_one there nodes.now (start r)) more.now) }
{
    for row in more {
        if is_one(there, nodes, number(row.from)) {
            match rows.push(*row) {
                Ok(()) => {}
                Err(_) => return Err(OutOfMemory),
            }
        }
    }
    Ok(())
}

/// The nodes of a level that are overloaded, in any order.
fn overloaded_told(alloc: Global, level: &LevelView<'_>) -> Result<Vec<NodeId>, OutOfMemory>
    requires { IsFit level.now }
    ensures { IfOk result (λ nodes. (n : ℕ) → is_overloaded nodes.items n
        ≡ is_overloaded (overloaded_in (told_of level.now)) n) }
{
    let _entries = level.store.len();
    let old = lsp_view::overloaded(alloc, level.store)?;
    let moved = match level.moved {
        Some(moved) => moved,
        None => return Ok(old),
    };
    let here = moved.aside.overloaded(alloc)?;
    let mut nodes = Vec::new(alloc);
    add_nodes(&mut nodes, old.as_slice(), moved.nodes, false)?;
    add_nodes(&mut nodes, here.as_slice(), moved.nodes, true)?;
    Ok(nodes)
}

/// Adds the nodes that are among some, or those that are beside them.
fn add_nodes(
    list: &mut Vec<NodeId>,
    more: &[NodeId],
    nodes: &[NodeId],
    there: bool,
) -> Result<(), OutOfMemory>
    requires { NodesRise 0 nodes.now }
    ensures { OnOk result (list.new.items ≡ list.old.items
        ++ filter (λ (n : node_id.NodeId). is_one there nodes.now (node_number n)) more.now) }
{
    for node in more {
        if is_one(there, nodes, number(*node)) {
            match list.push(*node) {
                Ok(()) => {}
                Err(_) => return Err(OutOfMemory),
            }
        }
    }
    Ok(())
}
