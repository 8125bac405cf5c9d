//! Routes of a prefix.
ghost use Rattle.std.specs.Prelude.{◌≡◌, ◌==◌, ◌&&◌, List, MatchOption};
ghost use Rattle.std.specs.List.{Contains, list_any};
ghost use Rattle.route_table.specs.declared.route.Route.{Route as RouteOf};
ghost use Rattle.route_table.specs.Ranks.{prefix_number};
ghost use Rattle.forward_views.specs.Looks.{Look, is_own};
ghost use Rattle.walk_text.specs.Tests.{AreLooks, owner_count};

use isis_base::Prefix;
use network_lab::Network;
use route_table::laws::routes_laws;
use route_table::{Rank, Route};

/// How many routers have a route of their own for a prefix.
pub(crate) fn owner_count(network: &Network, prefix: Prefix) -> usize
    ensures { (looks : List Look) → AreLooks network.now.seen.routers looks
        → result ≡ owner_count (prefix_number prefix) looks }
{
    routes_laws();
    let mut count = 0usize;
    for place in 0..network.routers() {
        if has_own(network.router(place).routes().list(), prefix) {
            count += 1;
        }
    }
    count
}

/// Whether one of the routes is a router's own for the prefix.
fn has_own(routes: &[Route], prefix: Prefix) -> bool
    ensures { result ≡ list_any
        (λ route. prefix_number route.prefix == prefix_number prefix && is_own route) routes.now }
{
    routes
        .iter()
        .any(|route| is_for(route, prefix) && route.rank == Rank::Own)
}

/// The route of a prefix; `None` exactly where there is none.
pub(crate) fn route_of(routes: &[Route], prefix: Prefix) -> Option<&Route>
    ensures { MatchOption result
        ((route : RouteOf) → Contains routes.now route
        → prefix_number route.prefix ≡ prefix_number prefix → ⊥)
        (λ route. Contains routes.now route.now
        × (prefix_number route.now.prefix ≡ prefix_number prefix)) }
{
    routes.iter().find(|route| is_for(route, prefix))
}

/// Whether a route is for a prefix.
fn is_for(route: &Route, prefix: Prefix) -> bool
    ensures { result ≡ (prefix_number route.now.prefix == prefix_number prefix) }
{
    number_of(route.prefix) == number_of(prefix)
}

/// A prefix as a number, by its address and then by its length.
fn number_of(prefix: Prefix) -> u64
    ensures { result ≡ prefix_number prefix }
{
    u64::from(prefix.address()) * 64 + u64::from(prefix.length())
}
