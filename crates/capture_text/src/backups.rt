//! The alternates for each target and each of its next hops.
ghost use Rattle.std.specs.Prelude.{◌≡◌, ◌≢◌, ◌<◌, ◌∷◌, ◌++◌, [], ℕ, true, List, IfOk, OnOk};
ghost use Rattle.std.specs.List.{All};
ghost use Rattle.spf_tree.specs.Nodes.{node_number, system_node, is_system};
ghost use Rattle.alternates.specs.Sides.{ArePrepared};
ghost use Rattle.capture_text.specs.Backups.{hop_of, AreBackups};
ghost use Rattle.capture_text.specs.SoFar.{AreSoFar, IsFor, AreAdded, AreHops};

use crate::backup::Backup;
use alternates::Sides;
use isis_base::{LspId, NodeId, OutOfMemory, SystemId};
use spf_tree::parts::{nodes_in_order, number};
use spf_tree::{Graph, HopTable, Hops, all_next_hops, from_scratch};
use std::alloc::Global;

/// The alternates of a graph's root (RFC 5286 3) for each other system that it reaches and each next hop
/// to it.
pub(crate) fn all_backups(alloc: Global, graph: &Graph) -> Result<Vec<Backup>, OutOfMemory>
    ensures { IfOk result (λ list.
        AreBackups graph.now.rows (node_number graph.now.root) list.items) }
{
    let table = match table_of(alloc, graph) {
        Ok(table) => table,
        Err(error) => return Err(error),
    };
    let mut sides = match Sides::new(alloc, graph, graph.root()) {
        Ok(sides) => sides,
        Err(error) => return Err(error),
    };
    let mut list = Vec::new(alloc);
    let nodes = nodes_in_order(graph);
    for place in 0..nodes.len() {
        match add_target(alloc, graph, &table, &mut sides, nodes[place], &mut list) {
            Ok(()) => {}
            Err(error) => return Err(error),
        }
    }
    Ok(list)
}

/// The next hops of all targets.
fn table_of(alloc: Global, graph: &Graph) -> Result<HopTable, OutOfMemory>
    ensures { IfOk result (λ table. AreHops graph.now table) }
{
    let root = graph.root();
    let distances = match from_scratch(alloc, graph, root) {
        Ok(distances) => distances,
        Err(error) => return Err(error),
    };
    match all_next_hops(alloc, graph, &distances, root) {
        Ok(table) => Ok(table),
        Err(error) => Err(error),
    }
}

/// Adds the alternates for a node, where it is another system that is reached, and each next hop to it.
fn add_target(
    alloc: Global,
    graph: &Graph,
    table: &HopTable,
    sides: &mut Sides,
    node: u64,
    list: &mut Vec<Backup>,
) -> Result<(), OutOfMemory>
    requires table { AreHops graph.now table.now }
    requires prepared { ArePrepared graph.now.rows (node_number graph.now.root) sides.old }
    ensures prepared { ArePrepared graph.now.rows (node_number graph.now.root) sides.new }
    ensures list { OnOk result ((nodes : List ℕ)
        → AreSoFar graph.now nodes list.old.items
        → All (λ before. before < node) nodes
        → AreSoFar graph.now (nodes ++ node ∷ []) list.new.items) }
{
    if !is_system(node) {
        return Ok(());
    }
    if node == number(graph.root()) {
        return Ok(());
    }
    let target = system_of(node);
    let hops = match table.hops(alloc, own_node(target)) {
        Ok(hops) => hops,
        Err(error) => return Err(error),
    };
    match add_hops(alloc, graph, sides, target, &hops, list) {
        Ok(()) => Ok(()),
        Err(error) => Err(error),
    }
}

/// Adds the alternates for a target and each of these hops.
fn add_hops(
    alloc: Global,
    graph: &Graph,
    sides: &mut Sides,
    target: SystemId,
    hops: &Hops,
    list: &mut Vec<Backup>,
) -> Result<(), OutOfMemory>
    requires other { node_number graph.now.root ≢ system_node target }
    requires prepared { ArePrepared graph.now.rows (node_number graph.now.root) sides.old }
    ensures prepared { ArePrepared graph.now.rows (node_number graph.now.root) sides.new }
    ensures added { OnOk result (AreAdded graph.now (system_node target) hops.now list.old.items
        list.new.items) }
{
    for place in 0..hops.len() {
        let Some(hop) = hops.get(place) else {
            return Ok(());
        };
        let backup = match backup_of(alloc, graph, sides, target, hop) {
            Ok(backup) => backup,
            Err(error) => return Err(error),
        };
        match list.push(backup) {
            Ok(()) => {}
            Err(_) => return Err(OutOfMemory),
        }
    }
    Ok(())
}

/// The alternates for a target and a hop.
fn backup_of(
    alloc: Global,
    graph: &Graph,
    sides: &mut Sides,
    target: SystemId,
    hop: SystemId,
) -> Result<Backup, OutOfMemory>
    requires other { node_number graph.now.root ≢ system_node target }
    requires prepared { ArePrepared graph.now.rows (node_number graph.now.root) sides.old }
    ensures prepared { ArePrepared graph.now.rows (node_number graph.now.root) sides.new }
    ensures told { IfOk result (λ backup. IsFor graph.now (system_node target) backup) }
    ensures hop { IfOk result (λ backup. hop_of backup ≡ system_node hop) }
{
    match sides.alternates(alloc, graph, graph.root(), own_node(target), hop) {
        Ok(alternates) => Ok(Backup {
            target,
            hop,
            alternates,
        }),
        Err(error) => Err(error),
    }
}

/// Whether the number is that of a system.
fn is_system(node: u64) -> bool
    ensures { result ≡ is_system node }
{
    node % 65536 == 0
}

/// The system of a number.
#[tactic(auto, unfolding(spf_tree::specs::Nodes::node_number))]
fn system_of(node: u64) -> SystemId
    requires { is_system node ≡ true }
    ensures { system_node result ≡ node }
{
    LspId::from_number(node).node.system
}

/// A system's own node.
fn own_node(system: SystemId) -> NodeId
    ensures { result ≡ record { system = system; pseudonode = 0 } }
{
    NodeId {
        system,
        pseudonode: 0,
    }
}
