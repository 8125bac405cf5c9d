//! What becomes of a packet at each router.
ghost use Rattle.std.specs.Prelude.{◌≡◌, ◌<◌, ◌==◌, ℕ, List, length, map, Some, None, MatchOption, slice_get};
ghost use Rattle.route_table.specs.Ranks.{rank_number};
ghost use Rattle.spf_tree.specs.Nodes.{system_node};
ghost use Rattle.trace_core.specs.Traces.{IsInside, by};
ghost use Rattle.packet_trace.specs.Steps as steps;

use crate::forwarder::Forwarder;
use crate::nodes::place_of;
use isis_base::SystemId;
use route_table::laws::routes_laws;
use route_table::{Rank, Route};
use trace_core::{Places, Step, Ways};

/// Packets to an address, over routers.
#[derive(Drop)]
pub struct Packets<'a> {
    pub forwarders: &'a [Forwarder],
    pub address: u32,
}

impl<'a> Places for Packets<'a> {
    ghost many = { λ p. length p.forwarders.now };

    ghost is = { λ p. by (steps.step_at p.forwarders.now p.address) };

    fn step(&self, place: usize) -> Step {
        match route_at(self.forwarders, self.address, place) {
            Some(route) => step_by(self.forwarders, route),
            None => Step::Lost,
        }
    }
}

impl<'a> Ways for Packets<'a> {
    ghost many = { λ p. length p.forwarders.now };

    ghost ways = { λ p. steps.steps_at p.forwarders.now p.address };

    fn count(&self, place: usize) -> usize {
        match route_at(self.forwarders, self.address, place) {
            Some(route) => way_count(route),
            None => 1,
        }
    }

    fn way(&self, place: usize, number: usize) -> Step {
        match route_at(self.forwarders, self.address, place) {
            Some(route) => way_by(self.forwarders, route, number),
            None => Step::Lost,
        }
    }
}

/// The route that the router at a place goes by to an address; `None` exactly where it has none, or there is no such place.
pub fn route_at(forwarders: &[Forwarder], address: u32, place: usize) -> Option<&Route>
    ensures { MatchOption result (steps.route_at forwarders.now address place ≡ None)
        (λ route. steps.route_at forwarders.now address place ≡ Some route.now) }
{
    match forwarders.get(place) {
        Some(forwarder) => looked_up(forwarder, address),
        None => None,
    }
}

/// The route that a router goes by to an address; `None` exactly where it has none.
fn looked_up(forwarder: &Forwarder, address: u32) -> Option<&Route>
    ensures { MatchOption result (steps.looked_up forwarder.now.routes address ≡ None)
        (λ route. steps.looked_up forwarder.now.routes address ≡ Some route.now) }
{
    routes_laws();
    let _rising = forwarder.routes.list();
    forwarder.routes.lookup(address)
}

/// What becomes of a packet by a route: it is at home where that is the router's own, and else goes to the first next hop.
fn step_by(forwarders: &[Forwarder], route: &Route) -> Step
    ensures inside { IsInside (length forwarders.now) result }
    ensures is { result ≡ steps.step_by (map steps.node_of forwarders.now) (Some route.now) }
{
    if is_own(route) {
        return Step::Home;
    }
    match route.hops.get(0) {
        Some(system) => step_to(forwarders, system),
        None => Step::Lost,
    }
}

/// What becomes of a packet that is handed to a system.
fn step_to(forwarders: &[Forwarder], system: SystemId) -> Step
    ensures inside { IsInside (length forwarders.now) result }
    ensures is { result ≡ steps.step_to
        (steps.place_of (map steps.node_of forwarders.now) (system_node system)) }
{
    match place_of(forwarders, system) {
        Some(next) => Step::On(next),
        None => Step::Lost,
    }
}

/// How many ways there are by a route: one for each next hop, and one where there is none.
fn way_count(route: &Route) -> usize
    ensures { (nodes : List ℕ) → result ≡ length (steps.steps_by nodes (Some route.now)) }
{
    if is_own(route) {
        return 1;
    }
    route.hops.len().max(1)
}

/// What becomes of a packet by a route and its next hop of this number.
fn way_by(forwarders: &[Forwarder], route: &Route, number: usize) -> Step
    requires { number < length (steps.steps_by (map steps.node_of forwarders.now) (Some route.now)) }
    ensures inside { IsInside (length forwarders.now) result }
    ensures is { slice_get (steps.steps_by (map steps.node_of forwarders.now) (Some route.now)) number
        ≡ Some result }
{
    if is_own(route) {
        return Step::Home;
    }
    match route.hops.get(number) {
        Some(system) => step_to(forwarders, system),
        None => Step::Lost,
    }
}

/// Whether a route is the router's own.
fn is_own(route: &Route) -> bool
    ensures { result ≡ (rank_number route.now.rank == 0) }
{
    route.rank == Rank::Own
}
