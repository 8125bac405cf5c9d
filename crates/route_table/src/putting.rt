//! Patches put into a table's routes, in place.

ghost use Rattle.std.specs.Prelude.{◌≡◌, ◌≤◌, ◌+◌, Some, None, vec_len, vec_capacity, IfSome};
ghost use Rattle.std.specs.Bool.{MatchBool};
ghost use Rattle.route_table.specs.Ranks.{prefix_number};
ghost use Rattle.route_table.specs.Routes.{AreRising};
ghost use Rattle.route_table.specs.Patches.{AreInTurn, IsPatched, coming, more_by};
ghost use Rattle.route_table.specs.Putting.{IsFree, IsHeld, IsPlaceOf, IsPutIn};

use crate::order::prefix_number;
use crate::patch::Patch;
use crate::route::Route;

/// Puts patches in, for which there is room.
pub fn put_all(routes: &mut Vec<Route>, list: Vec<Patch>)
    requires rising { AreRising routes.old.items }
    requires turn { AreInTurn list.items }
    requires room { vec_len routes.old + coming routes.old.items list.items ≤ vec_capacity routes.old }
    ensures patched { IsPatched routes.old.items list.items routes.new.items }
    ensures few { vec_len routes.new ≤ vec_len routes.old + coming routes.old.items list.items }
    ensures room { vec_capacity routes.old ≤ vec_capacity routes.new }
{
    for patch in list {
        put_in(routes, patch);
    }
}

/// A prefix's route becomes what a patch says.
fn put_in(routes: &mut Vec<Route>, patch: Patch)
    requires old { AreRising routes.old.items }
    requires own { IfSome patch.route (λ r. prefix_number r.prefix ≡ prefix_number patch.prefix) }
    requires room { vec_len routes.old + more_by routes.old.items (prefix_number patch.prefix) patch.route
        ≤ vec_capacity routes.old }
    ensures put { IsPutIn routes.old.items (prefix_number patch.prefix) patch.route routes.new.items }
    ensures few { vec_len routes.new
        ≤ vec_len routes.old + more_by routes.old.items (prefix_number patch.prefix) patch.route }
    ensures room { vec_capacity routes.old ≤ vec_capacity routes.new }
{
    let wanted = prefix_number(patch.prefix);
    let place = place_of(routes.as_slice(), wanted);
    match patch.route {
        Some(route) => put_route(routes, wanted, place, route),
        None => take_out(routes, wanted, place),
    }
}

/// A prefix has this route, whose place this is.
fn put_route(routes: &mut Vec<Route>, wanted: u64, place: usize, route: Route)
    requires old { AreRising routes.old.items }
    requires at { IsPlaceOf routes.old.items wanted place }
    requires own { prefix_number route.prefix ≡ wanted }
    requires room { vec_len routes.old + more_by routes.old.items wanted (Some route)
        ≤ vec_capacity routes.old }
    ensures put { IsPutIn routes.old.items wanted (Some route) routes.new.items }
    ensures few { vec_len routes.new ≤ vec_len routes.old + more_by routes.old.items wanted (Some route) }
    ensures room { vec_capacity routes.old ≤ vec_capacity routes.new }
{
    if is_held(routes.as_slice(), wanted, place) {
        routes[place] = route;
        return;
    }
    routes.insert(place, route).unwrap();
}

/// A prefix has no route, where its place would be this.
fn take_out(routes: &mut Vec<Route>, wanted: u64, place: usize)
    requires old { AreRising routes.old.items }
    requires at { IsPlaceOf routes.old.items wanted place }
    ensures put { IsPutIn routes.old.items wanted None routes.new.items }
    ensures few { vec_len routes.new ≤ vec_len routes.old }
    ensures room { vec_capacity routes.old ≤ vec_capacity routes.new }
{
    if is_held(routes.as_slice(), wanted, place) {
        routes.remove(place);
    }
}

/// Whether the prefix has a route.
pub fn is_held(routes: &[Route], wanted: u64, place: usize) -> bool
    requires old { AreRising routes.now }
    requires at { IsPlaceOf routes.now wanted place }
    ensures { MatchBool result (IsHeld routes.now wanted place) (IsFree routes.now wanted) }
{
    if place >= routes.len() {
        return false;
    }
    prefix_number(routes[place].prefix) == wanted
}

/// The place of the first route whose prefix isn't below this one.
pub fn place_of(routes: &[Route], wanted: u64) -> usize
    requires { AreRising routes.now }
    ensures { IsPlaceOf routes.now wanted result }
{
    let (mut low, mut high) = (0, routes.len());
    while low < high {
        let middle = low + (high - low) / 2;
        if prefix_number(routes[middle].prefix) < wanted {
            low = middle + 1;
        } else {
            high = middle;
        }
    }
    low
}
