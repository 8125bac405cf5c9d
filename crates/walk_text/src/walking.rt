//! The walk along the least next hops.
ghost use Rattle.std.specs.Prelude.{◌≡◌, ◌<◌, ℕ, List, Some, length, slice_get, IfOk, IfErr, IfSome};
ghost use Rattle.std.specs.Option.{option_map};
ghost use Rattle.model_router.specs.Places.{nth};
ghost use Rattle.model_router.specs.Routers as model;
ghost use Rattle.route_table.specs.declared.route.Route.{Route as RouteOf};
ghost use Rattle.route_table.specs.Ranks.{prefix_number};
ghost use Rattle.spf_tree.specs.Nodes.{system_node};
ghost use Rattle.router_core.specs.Reached.{IsReached};
ghost use Rattle.forward_views.specs.Walked.{IsRouteOf};
ghost use Rattle.router_routes.specs.Candidates.{AreRoutesOf};
ghost use Rattle.forward_views.specs.Looks.{Look, outlook};
ghost use Rattle.forward_views.specs.Forwarded.{router_in};
ghost use Rattle.walk_text.specs.Foreign.{node_of};
ghost use Rattle.walk_text.specs.Tests.{AreLooks, AreTested, owner_count};
ghost use Rattle.walk_text.specs.Refusals.{IsRefused};
ghost use Rattle.walk_text.specs.Paths.{IsLeastPath, IsWalked};
ghost use Rattle.walk_text.specs.OnWay.{HasRouteAt, EndsAtOwner};

use crate::forward_fault::ForwardFault;
use crate::nodes::{system_number, system_of};
use crate::owners::route_of;
use crate::walked::Walked;
use forward_views::laws::{agree_law, forward_law, hops_law};
use isis_base::{OutOfMemory, Prefix, SystemId};
use network_lab::Network;
use route_table::laws::routes_laws;
use router_core::Router;
use std::alloc::Global;

/// The walk of a packet over routers that passed all tests, to a prefix of which one router is the owner.
pub(crate) fn walk(
    alloc: Global,
    network: &Network,
    from: usize,
    prefix: Prefix,
) -> Result<Walked, ForwardFault>
    requires there { from < length network.now.seen.routers }
    requires looks { (looks : List Look) × AreLooks network.now.seen.routers looks }
    requires reached { (i : ℕ) (r : model.Router) → nth network.now.seen.routers i ≡ Some r
        → IsReached r }
    requires tested { (looks : List Look) → AreLooks network.now.seen.routers looks
        → AreTested looks × (owner_count (prefix_number prefix) looks ≡ 1) }
    ensures refused { IfErr result (λ fault. (looks : List Look)
        → AreLooks network.now.seen.routers looks
        → IsRefused looks from (prefix_number prefix) fault) }
    ensures ok { IfOk result (λ walked. (looks : List Look)
        → AreLooks network.now.seen.routers looks
        → IsWalked looks from (prefix_number prefix) walked) }
{
    routes_laws();
    forward_law();
    network.facts();
    let Some(route) = route_of(network.router(from).routes().list(), prefix) else {
        return Err(ForwardFault::NoRoute);
    };
    let cost = route.cost;
    let routers = least_path(alloc, network, from, prefix)?;
    Ok(Walked { routers, cost })
}

/// The routers after the first one that a packet comes to, where each hands it to its least next hop.
fn least_path(
    alloc: Global,
    network: &Network,
    from: usize,
    prefix: Prefix,
) -> Result<Vec<usize>, OutOfMemory>
    requires there { from < length network.now.seen.routers }
    requires looks { (looks : List Look) × AreLooks network.now.seen.routers looks }
    requires reached { (i : ℕ) (r : model.Router) → nth network.now.seen.routers i ≡ Some r
        → IsReached r }
    requires tested { (looks : List Look) → AreLooks network.now.seen.routers looks
        → AreTested looks × (owner_count (prefix_number prefix) looks ≡ 1) }
    requires route { (looks : List Look) → AreLooks network.now.seen.routers looks
        → HasRouteAt looks (prefix_number prefix) from }
    ensures { IfOk result (λ places. (looks : List Look)
        → AreLooks network.now.seen.routers looks
        → EndsAtOwner looks (prefix_number prefix) from places.items) }
{
    routes_laws();
    forward_law();
    network.facts();
    let mut places = Vec::new(alloc);
    let mut place = from;
    let mut hop = least_hop(network.router(place), prefix);
    while let Some(system) = hop {
        place = place_of(network, system);
        places.push(place)?;
        hop = least_hop(network.router(place), prefix);
    }
    Ok(places)
}

/// The least next hop of a router's route of a prefix.
fn least_hop(router: &Router, prefix: Prefix) -> Option<SystemId>
    ensures { (look : Look) (route : RouteOf) → look.router ≡ router.now
        → AreRoutesOf (outlook look) look.routes
        → IsRouteOf (router_in look) (prefix_number prefix) route
        → option_map system_node result ≡ slice_get route.hops 0 }
{
    routes_laws();
    match route_of(router.routes().list(), prefix) {
        Some(route) => route.hops.get(0),
        None => None,
    }
}

/// The number of the router of a system.
fn place_of(network: &Network, system: SystemId) -> usize
    requires { (i : ℕ) × (r : model.Router) × (nth network.now.seen.routers i ≡ Some r)
        × (node_of r ≡ system_node system) }
    ensures there { result < length network.now.seen.routers }
    ensures node { IfSome (nth network.now.seen.routers result)
        (λ r. node_of r ≡ system_node system) }
{
    let node = system_number(system);
    for place in 0..network.routers() {
        if system_number(system_of(network.router(place))) == node {
            return place;
        }
    }
    unreachable!()
}
