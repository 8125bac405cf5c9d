//! The routes made of candidates in order.

ghost use Rattle.std.specs.Prelude.{◌≡◌, ◌<◌, ℕ, length, slice_index_or, IfOk};
ghost use Rattle.spf_tree.specs.Nodes.{node_number};
ghost use Rattle.spf_tree.specs.Distances.{AreDistances};
ghost use Rattle.route_table.specs.declared.candidate.Candidate.{Candidate};
ghost use Rattle.route_table.specs.Ranks.{prefix_number};
ghost use Rattle.route_table.specs.Routes.{IsHopTo, IsRoute, AreRoutes};
ghost use Rattle.route_table.specs.Order.{IsListedHop, AreInOrder, HaveRoutes};

use crate::candidate::Candidate;
use crate::hops::hops_of;
use crate::order::{in_order, prefix_end, run_end};
use crate::room::room_of;
use crate::route::Route;
use crate::table::{Routes, of};
use isis_base::OutOfMemory;
use spf_tree::{Distances, Graph, HopTable, all_next_hops};
use std::alloc::Global;

/// One route for each prefix that a candidate is for: the least rank, then the least cost (RFC 5302 3.2), with the next
/// hops to the origins of all candidates of that rank and cost. Origins of rank `Two` are looked for in the second graph,
/// all others in the first. The distances are those of each graph from its root.
pub fn routes(
    alloc: Global,
    candidates: &[Candidate],
    one: &Graph,
    one_distances: &Distances,
    two: &Graph,
    two_distances: &Distances,
) -> Result<Routes, OutOfMemory>
    requires one { AreDistances one.now.rows (node_number one.now.root) one_distances.now }
    requires two { AreDistances two.now.rows (node_number two.now.root) two_distances.now }
    ensures { IfOk result (λ routes. AreRoutes (IsHopTo one.now two.now) candidates.now routes) }
{
    let one_hops = match all_next_hops(alloc, one, one_distances, one.root()) {
        Ok(hops) => hops,
        Err(error) => return Err(error),
    };
    let two_hops = match all_next_hops(alloc, two, two_distances, two.root()) {
        Ok(hops) => hops,
        Err(error) => return Err(error),
    };
    match routes_by(alloc, candidates, &one_hops, &two_hops) {
        Ok(routes) => Ok(routes),
        Err(error) => Err(error),
    }
}

/// The routes of candidates where the next hops of both levels are known: `routes` is made of it. Origins of rank `Two` are
/// looked for in the second table, all others in the first.
pub fn routes_by(
    alloc: Global,
    candidates: &[Candidate],
    one: &HopTable,
    two: &HopTable,
) -> Result<Routes, OutOfMemory>
    ensures { IfOk result
        (λ routes. AreRoutes (IsListedHop one.now two.now) candidates.now routes) }
{
    let sorted = match in_order(alloc, candidates) {
        Ok(sorted) => sorted,
        Err(error) => return Err(error),
    };
    match best_of(alloc, sorted.as_slice(), one, two) {
        Ok(routes) => of(routes),
        Err(error) => Err(error),
    }
}

/// The routes of candidates in order.
fn best_of(
    alloc: Global,
    candidates: &[Candidate],
    one: &HopTable,
    two: &HopTable,
) -> Result<Vec<Route>, OutOfMemory>
    requires { AreInOrder candidates.now }
    ensures { IfOk result
        (λ routes. AreRoutes (IsListedHop one.now two.now) candidates.now routes.items) }
{
    let many = match room_of(candidates.len()) {
        Ok(many) => many,
        Err(error) => return Err(error),
    };
    let mut routes = match Vec::with_capacity(alloc, many) {
        Ok(routes) => routes,
        Err(_) => return Err(OutOfMemory),
    };
    let mut first = 0;
    while first < candidates.len() {
        let route = match route_at(alloc, candidates, first, one, two) {
            Ok(route) => route,
            Err(error) => return Err(error),
        };
        match routes.push(route) {
            Ok(()) => {}
            Err(_) => return Err(OutOfMemory),
        }
        first = prefix_end(candidates, first);
    }
    Ok(routes)
}

/// The route of a prefix whose candidates begin at this place.
pub(crate) fn route_at(
    alloc: Global,
    candidates: &[Candidate],
    first: usize,
    one: &HopTable,
    two: &HopTable,
) -> Result<Route, OutOfMemory>
    requires order { AreInOrder candidates.now }
    requires within { first < length candidates.now }
    requires cut { (i : ℕ) (d : Candidate) → i < first
        → prefix_number (slice_index_or candidates.now i d).prefix < prefix_number
        (slice_index_or candidates.now first d).prefix }
    ensures route { IfOk result
        (λ route. IsRoute (IsListedHop one.now two.now) candidates.now route) }
    ensures prefix { IfOk result (λ route. (d : Candidate)
        → route.prefix ≡ (slice_index_or candidates.now first d).prefix) }
{
    let best = &candidates[first];
    let end = run_end(candidates, first);
    match hops_of(alloc, candidates, first, end, one, two) {
        Ok(hops) => Ok(Route {
            prefix: best.prefix,
            rank: best.rank,
            cost: best.cost,
            hops,
        }),
        Err(error) => Err(error),
    }
}
