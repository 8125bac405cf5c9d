//! The neighbours of circuits and of LANs.
ghost use Rattle.std.specs.Prelude.{◌≡◌, ℕ, ◌*◌, ◌<◌, ◌≤◌, Option, [], ◌∷◌, map, length, IfOk, IfSome};
ghost use Rattle.std.specs.List.{AllByRecursion};
ghost use Rattle.std.specs.Option.{option_map};
ghost use Rattle.model_router.specs.LspNeighbours as nodes;
ghost use Rattle.model_router.specs.Configs.{Config};
ghost use Rattle.model_router.specs.Elections.{Candidate};
ghost use Rattle.model_router.specs.Numbers.{node_number, system_number};
ghost use Rattle.adjacency.specs.Views.{neighbour_of, point_of};
ghost use Rattle.router_circuits.specs.Elections.{designated_of, system_and_lan};
ghost use Rattle.lsp_fragments.specs.Entries.{node_and_metric};
ghost use Rattle.router_wanted.specs.Lent.{config_of};
ghost use Rattle.router_wanted.specs.Parts.{put_ups};
ghost use Rattle.router_wanted.specs.Views.{AreGood, IsGoodItem, node_in};

use crate::nodes::{number, put, put_one};
use crate::wants::Wants;
use adjacency::{Neighbour, P2pAdj};
use designated_is::are_same_systems;
use isis_base::laws::lsp_id_law;
use isis_base::{Level, LspId, NodeId, OutOfMemory, SystemId};
use isis_tlv::NeighbourItem;
use router_circuits::{Circuit, Designated};
use std::alloc::Global;

/// The neighbours of all circuits, by node, those of one node in order of circuits.
pub(crate) fn system_nodes(
    alloc: Global,
    base: &Wants<'_>,
    circuits: &[Circuit],
    level: Level,
) -> Result<Vec<NeighbourItem>, OutOfMemory>
    requires few { length circuits.now ≤ 64 }
    requires metrics { AllByRecursion (λ c. c.metric ≤ 16777215) circuits.now }
    ensures nodes { IfOk result (λ list. map node_and_metric list.items
        ≡ nodes.all_nodes (config_of base.now) level 0 circuits.now []) }
    ensures good { IfOk result (λ list. AreGood list.items) }
{
    let mut list = Vec::new(alloc);
    for place in 0..circuits.len() {
        let item = node_of(base.system, &circuits[place], place, level);
        match put(&mut list, item) {
            Ok(()) => {}
            Err(error) => return Err(error),
        }
    }
    Ok(list)
}

/// A pseudonode's neighbours: the router and all up neighbours, at metric 0, by node.
#[tactic(auto, unfolding(crate::specs::Parts::put_ups))]
pub(crate) fn lan_nodes(
    alloc: Global,
    system: SystemId,
    up: &[Neighbour],
) -> Result<Vec<NeighbourItem>, OutOfMemory>
    ensures nodes { IfOk result (λ list. map node_and_metric list.items
        ≡ put_ups ((256 * system_number system, 0) ∷ []) (map neighbour_of up.now)) }
    ensures good { IfOk result (λ list. AreGood list.items) }
{
    let mut list = Vec::new(alloc);
    match put_one(&mut list, system_item(system, 0)) {
        Ok(()) => {}
        Err(error) => return Err(error),
    }
    for neighbour in up {
        match put_one(&mut list, system_item(neighbour.system, 0)) {
            Ok(()) => {}
            Err(error) => return Err(error),
        }
    }
    Ok(list)
}

/// What a circuit, of this place, gives the system's LSP.
fn node_of(system: SystemId, circuit: &Circuit, place: usize, level: Level) -> Option<NeighbourItem>
    requires place { place < 64 }
    requires metric { circuit.now.metric ≤ 16777215 }
    ensures node { (config : Config) → config.system ≡ system_number system
        → node_in result ≡ nodes.nodes_of config place circuit.now level }
    ensures good { IfSome result IsGoodItem }
{
    let metric = circuit.metric();
    match circuit.point() {
        Some(point) => {
            if !circuit.is_open(level) {
                return None;
            }
            point_node(metric, point)
        }
        None => lan_node(metric, circuit.designated(system, place as u8 + 1, level)),
    }
}

/// The neighbour of a point-to-point adjacency.
fn point_node(metric: u32, point: &P2pAdj) -> Option<NeighbourItem>
    requires { metric ≤ 16777215 }
    ensures node { node_in result ≡ nodes.point_node metric (point_of point.now).neighbour }
    ensures good { IfSome result IsGoodItem }
{
    match point.neighbour() {
        Some(neighbour) => Some(system_item(neighbour.system, metric)),
        None => None,
    }
}

/// The pseudonode of a LAN, where the designated system's LAN ID names it.
fn lan_node(metric: u32, designated: Option<Designated>) -> Option<NeighbourItem>
    requires { metric ≤ 16777215 }
    ensures node { (found : Option Candidate)
        → option_map designated_of designated ≡ option_map system_and_lan found
        → node_in result ≡ nodes.lan_node metric found }
    ensures good { IfSome result IsGoodItem }
{
    match designated {
        Some(designated) => {
            let lan = designated.lan;
            if are_same_systems(lan.system, designated.system) && lan.pseudonode > 0 {
                return Some(item(lan, metric));
            }
            None
        }
        None => None,
    }
}

/// A system as a neighbour.
fn system_item(system: SystemId, metric: u32) -> NeighbourItem
    requires { metric ≤ 16777215 }
    ensures node { node_and_metric result ≡ (256 * system_number system, metric) }
    ensures good { IsGoodItem result }
{
    let node = NodeId {
        system,
        pseudonode: 0,
    };
    item(node, metric)
}

/// A neighbour at a metric.
fn item(node: NodeId, metric: u32) -> NeighbourItem
    requires { metric ≤ 16777215 }
    ensures node { node_and_metric result ≡ (node_number node, metric) }
    ensures good { IsGoodItem result }
{
    lsp_id_law(LspId { node, number: 0 });
    number(node);
    NeighbourItem { node, metric }
}
