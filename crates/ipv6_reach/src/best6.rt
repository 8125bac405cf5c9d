//! The IPv6 routes of a system.

ghost use Rattle.std.specs.Prelude.{◌≡◌, ℕ, IfOk};
ghost use Rattle.spf_tree.specs.Nodes.{node_number};
ghost use Rattle.spf_tree.specs.Distances.{AreDistances, AreSmall};
ghost use Rattle.ipv6_reach.specs.Reach6.{candidates6};
ghost use Rattle.ipv6_reach.specs.Routes6.{IsHopTo6, AreRoutes6, AreRoutesFrom};
ghost use Rattle.ipv6_reach.specs.Numbered.{AreInOrder6};

use crate::candidate6::Candidate6;
use crate::candidates6::candidates6;
use crate::capture::{Capture, allocator, store};
use crate::numbered::{in_order6, named, number_all};
use crate::reach6::own_node;
use crate::route6::Route6;
use isis_base::{NodeId, OutOfMemory, SystemId};
use route_table::routes;
use spf_tree::parts::rows_in_order;
use spf_tree::{Distances, Graph, from_scratch, usable};
use std::alloc::Global;

/// The distances from a system over a graph, which leave room for a metric in 64 bits.
fn distances_from(alloc: Global, graph: &Graph, root: NodeId) -> Result<Distances, OutOfMemory>
    ensures least { IfOk result (λ d. AreDistances graph.now.rows (node_number root) d) }
    ensures small { IfOk result (λ d. AreSmall d) }
{
    let _rows = rows_in_order(graph);
    match from_scratch(alloc, graph, root) {
        Ok(distances) => Ok(distances),
        Err(error) => Err(error),
    }
}

/// The routes of candidates in order, over a graph. No candidate is of level 2, so the second graph is empty.
fn routes_by(
    alloc: Global,
    graph: &Graph,
    distances: &Distances,
    candidates: &[Candidate6],
) -> Result<Vec<Route6>, OutOfMemory>
    requires distances { AreDistances graph.now.rows (node_number graph.now.root) distances.now }
    requires order { AreInOrder6 candidates.now }
    ensures { IfOk result (λ list. AreRoutes6 (IsHopTo6 graph.now) candidates.now list.items) }
{
    let numbered = match number_all(alloc, candidates) {
        Ok(numbered) => numbered,
        Err(error) => return Err(error),
    };
    let none = match usable(alloc, &[], &[], graph.root()) {
        Ok(none) => none,
        Err(error) => return Err(error),
    };
    let from_none = match from_scratch(alloc, &none, none.root()) {
        Ok(distances) => distances,
        Err(error) => return Err(error),
    };
    let stands = numbered.stands.as_slice();
    let routes = match routes(alloc, stands, graph, distances, &none, &from_none) {
        Ok(routes) => routes,
        Err(error) => return Err(error),
    };
    match named(alloc, numbered.names.as_slice(), routes.list()) {
        Ok(list) => Ok(list),
        Err(error) => Err(error),
    }
}

/// The IPv6 routes of a system in a captured database, in order of prefix: of each prefix the way of least rank, then of least
/// cost, with the next hops to all that tell it so (RFC 5308 5, RFC 5302 3.2). Prefixes of a metric above 4,261,412,864 aren't
/// considered. A system without a live LSP of number 0 has the routes of one that tells nothing.
pub fn routes6(capture: &Capture, root: SystemId) -> Result<Vec<Route6>, OutOfMemory>
    ensures { IfOk result (λ routes. AreRoutesFrom capture.now.entries root routes.items) }
{
    let alloc = allocator(capture);
    let graph = match capture.graph(root) {
        Ok(graph) => graph,
        Err(error) => return Err(error),
    };
    let distances = match distances_from(alloc, &graph, own_node(root)) {
        Ok(distances) => distances,
        Err(error) => return Err(error),
    };
    let candidates = match candidates6(alloc, store(capture), root, &distances) {
        Ok(candidates) => in_order6(candidates),
        Err(error) => return Err(error),
    };
    match routes_by(alloc, &graph, &distances, candidates.as_slice()) {
        Ok(routes) => Ok(routes),
        Err(error) => Err(error),
    }
}
