//! The systems that a level reaches (ISO 10589 C.2), and whether one of them is in another area.
ghost use Rattle.std.specs.Prelude.{[], ◌≡◌, ◌++◌, ◌∷◌, map, IfOk, OnOk};
ghost use Rattle.std.specs.List.{flat_map};
ghost use Rattle.lsp_store.specs.declared.entry.Entry as entry;
ghost use Rattle.spf_tree.specs.Nodes.{node_number};
ghost use Rattle.spf_tree.specs.Graphs.{AreUsable};
ghost use Rattle.spf_tree.specs.Distances.{cost_at};
ghost use Rattle.lsp_view.specs.Lsps.{entries_in};
ghost use Rattle.lsp_view.specs.Views.{own_node, rows_in, overloaded_in, lead_of, areas_at};
ghost use Rattle.route_leaking.specs.Attachment.{is_attached};
ghost use Rattle.router_routes.specs.Told.{told_in};
ghost use Rattle.router_routes.specs.Moved.{IsFit, NodesRise, is_one, told_by_nodes, told_of};
ghost use Rattle.router_routes.specs.Outlooks.{where_run};
ghost use Rattle.router_routes.specs.Candidates.{LeaveRoom, leads_other, reached_by, reached_in};
ghost use Rattle.router_routes.specs.Kept.{AreSame, system_at, systems_among};

use crate::view::{LevelView, is_one, lsps_of};
use isis_base::{AreaAddress, LspId, NodeId, OutOfMemory, SystemId};
use lsp_store::Entry;
use lsp_view::{Lsps, is_live};
use spf_repair::Repaired;
use spf_tree::Distances;
use spf_tree::parts::number;
use std::alloc::Global;

/// The systems that a level reaches beside the root, each with its cost, in any order; none where it isn't run.
pub(crate) fn level_systems(
    alloc: Global,
    runs: bool,
    told: &LevelView<'_>,
    repaired: &Repaired,
) -> Result<Vec<(SystemId, u64)>, OutOfMemory>
    requires fit { IsFit told.now }
    requires graph { AreUsable (rows_in (where_run runs (told_of told.now)))
        (overloaded_in (where_run runs (told_of told.now))) repaired.now.root
        repaired.now.graph }
    ensures same { IfOk result (λ list. AreSame list.items
        (reached_in (where_run runs (told_of told.now)) repaired.now.root)) }
    ensures room { IfOk result (λ list. LeaveRoom list.items) }
{
    if !runs {
        return Ok(Vec::new(alloc));
    }
    reached(alloc, told, repaired.distances(), repaired.graph().root())
}

/// The systems beside the root whose live number 0 is held, and that have a distance, in any order.
fn reached(
    alloc: Global,
    told: &LevelView<'_>,
    distances: &Distances,
    root: NodeId,
) -> Result<Vec<(SystemId, u64)>, OutOfMemory>
    requires { IsFit told.now }
    ensures { IfOk result (λ list. AreSame list.items
        (flat_map (reached_by (cost_at distances.now) (node_number root)) (told_of told.now))) }
{
    let mut list = with_room(alloc, told.store.len())?;
    let start = number(root);
    let held = Lsps::of(told.store);
    match told.moved {
        None => match add_those(&mut list, held, &[], false, distances, start) {
            Ok(()) => Ok(list),
            Err(error) => Err(error),
        },
        Some(moved) => {
            add_those(&mut list, held, moved.nodes, false, distances, start)?;
            add_those(&mut list, moved.aside, moved.nodes, true, distances, start)?;
            Ok(list)
        }
    }
}

/// The empty list, with room for so many systems, one for each LSP.
fn with_room(alloc: Global, lsps: usize) -> Result<Vec<(SystemId, u64)>, OutOfMemory>
    ensures { IfOk result (λ list. list.items ≡ []) }
{
    match Vec::with_capacity(alloc, lsps) {
        Ok(list) => Ok(list),
        Err(_) => Err(OutOfMemory),
    }
}

/// Adds those of some LSPs that are among some nodes, or that are beside them.
fn add_those(
    list: &mut Vec<(SystemId, u64)>,
    lsps: Lsps<'_>,
    nodes: &[NodeId],
    there: bool,
    distances: &Distances,
    root: u64,
) -> Result<(), OutOfMemory>
    requires { NodesRise 0 nodes.now }
    ensures { OnOk result (list.new.items ≡ list.old.items
        ++ flat_map (reached_by (cost_at distances.now) root)
        (told_by_nodes (is_one there nodes.now) (told_in (entries_in lsps.entry)))) }
{
    for (id, entry) in lsps.iter() {
        match add_where(list, id, entry, nodes, there, distances, root) {
            Ok(()) => {}
            Err(error) => return Err(error),
        }
    }
    Ok(())
}

/// Adds the system whose number 0 a live LSP is, where it is among some nodes, or beside them.
fn add_where(
    list: &mut Vec<(SystemId, u64)>,
    id: LspId,
    entry: &Entry,
    nodes: &[NodeId],
    there: bool,
    distances: &Distances,
    root: u64,
) -> Result<(), OutOfMemory>
    requires { NodesRise 0 nodes.now }
    ensures { OnOk result (list.new.items ≡ list.old.items
        ++ flat_map (reached_by (cost_at distances.now) root)
        (told_by_nodes (is_one there nodes.now) (told_in ((id, entry.now) ∷ [])))) }
{
    if !is_live(entry) {
        return Ok(());
    }
    if !is_one(there, nodes, number(id.node)) {
        return Ok(());
    }
    add_reached(list, id, distances, root)
}

/// The systems that these nodes are, beside the root, each with its cost; none of those that have no distance.
pub(crate) fn systems_among(
    alloc: Global,
    distances: &Distances,
    root: u64,
    nodes: &[NodeId],
) -> Result<Vec<(SystemId, u64)>, OutOfMemory>
    ensures { IfOk result
        (λ list. list.items ≡ systems_among (cost_at distances.now) root nodes.now) }
{
    let mut list = Vec::new(alloc);
    for node in nodes {
        match add_node(&mut list, *node, distances, root) {
            Ok(()) => {}
            Err(error) => return Err(error),
        }
    }
    Ok(list)
}

/// Adds the system that a node is, where it is another than the root and has a distance.
fn add_node(
    list: &mut Vec<(SystemId, u64)>,
    node: NodeId,
    distances: &Distances,
    root: u64,
) -> Result<(), OutOfMemory>
    ensures { OnOk result (list.new.items
        ≡ list.old.items ++ system_at (cost_at distances.now) root node) }
{
    add_reached(list, LspId { node, number: 0 }, distances, root)
}

/// Adds the system whose number 0 this is, where it is another than the root and has a distance.
fn add_reached(
    list: &mut Vec<(SystemId, u64)>,
    id: LspId,
    distances: &Distances,
    root: u64,
) -> Result<(), OutOfMemory>
    ensures { (entry : entry.Entry) → OnOk result (list.new.items ≡ list.old.items
        ++ reached_by (cost_at distances.now) root (id, entry)) }
{
    if !leads_other(root, id) {
        return Ok(());
    }
    match distances.get(id.node) {
        Some(cost) => match list.push((id.node.system, cost)) {
            Ok(()) => Ok(()),
            Err(_) => Err(OutOfMemory),
        },
        None => Ok(()),
    }
}

/// Whether an LSP is number 0 of a system beside the root.
fn leads_other(root: u64, id: LspId) -> bool
    ensures { result ≡ leads_other root id }
{
    id.number == 0 && id.node.pseudonode == 0 && number(id.node) != root
}

/// Whether one of these systems is in another area (ISO 10589 7.2.9.2).
pub(crate) fn is_attached(
    alloc: Global,
    areas: &[AreaAddress],
    told: &LevelView<'_>,
    systems: &[(SystemId, u64)],
) -> Result<bool, OutOfMemory>
    requires { IsFit told.now }
    ensures { IfOk result (λ attached. attached ≡ is_attached areas.now
        (map (λ s. areas_at (lead_of (told_of told.now) (own_node s.0))) systems.now)) }
{
    let mut lists = Vec::new(alloc);
    for reached in systems {
        let list = match areas_of(alloc, told, reached.0) {
            Ok(list) => list,
            Err(error) => return Err(error),
        };
        match lists.push(list) {
            Ok(()) => {}
            Err(_) => return Err(OutOfMemory),
        }
    }
    Ok(route_leaking::attached(areas, &lists))
}

/// The area addresses of a system.
fn areas_of(
    alloc: Global,
    told: &LevelView<'_>,
    system: SystemId,
) -> Result<Vec<AreaAddress>, OutOfMemory>
    requires { IsFit told.now }
    ensures { IfOk result (λ list. list.items
        ≡ areas_at (lead_of (told_of told.now) (own_node system))) }
{
    let lsps = lsps_of(told, system);
    lsps.kept();
    lsps.area_list(alloc, system)
}
