//! The tests of a network in their order, and the walk.
ghost use Rattle.std.specs.Prelude.{◌≡◌, ◌<◌, ℕ, List, Some, length, IfOk, IfErr};
ghost use Rattle.model_router.specs.Places.{nth};
ghost use Rattle.model_router.specs.Routers as model;
ghost use Rattle.router_core.specs.Reached.{IsReached};
ghost use Rattle.route_table.specs.Ranks.{prefix_number};
ghost use Rattle.forward_views.specs.Looks.{Look};
ghost use Rattle.walk_text.specs.Tests.{AreLooks, AreTested};
ghost use Rattle.walk_text.specs.Refusals.{IsRefused};
ghost use Rattle.walk_text.specs.Paths.{IsWalked};

use crate::alone::Alone;
use crate::forward_fault::ForwardFault;
use crate::no_zero::NoZero;
use crate::owners::owner_count;
use crate::same_view::SameView;
use crate::settled::Settled;
use crate::strangers::least_stranger;
use crate::test::first_without;
use crate::walked::Walked;
use crate::walking::walk;
use isis_base::Prefix;
use network_lab::Network;
use std::alloc::Global;

/// The walk of a packet from a router to a prefix, where the routers agree: whichever next hops it takes, it arrives at the
/// one router whose own the prefix is, at the cost of the first router's route, after fewer moves than there are routers
/// (RFC 1195 3.10). What is answered is the walk that takes the least next hop each time. Whether links carry it isn't said.
///
/// The clauses speak of the routers with their routes, which `looks` says they have. The faults are told in the order in
/// which `ForwardFault` names them, the first that holds: `Levels`, `Stranger`, `Views`, `Unsettled`, `Zero`, `Owners`,
/// `NoRoute`.
pub fn forward(
    alloc: Global,
    network: &Network,
    from: usize,
    prefix: Prefix,
) -> Result<Walked, ForwardFault>
    requires { from < length network.now.seen.routers }
    ensures looks { (looks : List Look) × AreLooks network.now.seen.routers looks }
    ensures refused { IfErr result (λ fault. (looks : List Look)
        → AreLooks network.now.seen.routers looks
        → IsRefused looks from (prefix_number prefix) fault) }
    ensures ok { IfOk result (λ walked. (looks : List Look)
        → AreLooks network.now.seen.routers looks
        → IsWalked looks from (prefix_number prefix) walked) }
{
    facts_of(network);
    network.facts();
    match test_all(alloc, network) {
        Ok(()) => {}
        Err(fault) => return Err(fault),
    }
    let count = owner_count(network, prefix);
    if count != 1 {
        return Err(ForwardFault::Owners { count });
    }
    walk(alloc, network, from, prefix)
}

/// What is tested of all routers, one thing after another.
fn test_all(alloc: Global, network: &Network) -> Result<(), ForwardFault>
    requires some { 0 < length network.now.seen.routers }
    requires looks { (looks : List Look) × AreLooks network.now.seen.routers looks }
    ensures refused { IfErr result (λ fault. (looks : List Look) (from prefix : ℕ)
        → AreLooks network.now.seen.routers looks → IsRefused looks from prefix fault) }
    ensures ok { IfOk result (λ u. (looks : List Look) → AreLooks network.now.seen.routers looks
        → AreTested looks) }
{
    if let Some(router) = first_without(network, &Alone)? {
        return Err(ForwardFault::Levels { router });
    }
    if let Some(system) = least_stranger(alloc, network)? {
        return Err(ForwardFault::Stranger { system });
    }
    let first = network.router(0);
    if let Some(router) = first_without(network, &SameView { first })? {
        return Err(ForwardFault::Views { router });
    }
    if let Some(router) = first_without(network, &Settled { alloc })? {
        return Err(ForwardFault::Unsettled { router });
    }
    if let Some(router) = first_without(network, &NoZero { alloc })? {
        return Err(ForwardFault::Zero { router });
    }
    Ok(())
}

/// Each router has its routes, and what always holds of it. It does nothing.
pub(crate) fn facts_of(network: &Network)
    ensures looks { (looks : List Look) × AreLooks network.now.seen.routers looks }
    ensures reached { (i : ℕ) (r : model.Router) → nth network.now.seen.routers i ≡ Some r
        → IsReached r }
{
    for place in 0..network.routers() {
        let router = network.router(place);
        router.facts();
        let _routes = router.routes();
    }
}
