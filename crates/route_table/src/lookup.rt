//! The longest prefix that has an address, by a binary search for each length.

ghost use Rattle.std.specs.Prelude.{◌≡◌, ◌≤◌, ◌<◌, ℕ, length, slice_index_or};
ghost use Rattle.std.specs.Option.{MatchOption};
ghost use Rattle.route_table.specs.declared.route.Route.{Route};
ghost use Rattle.route_table.specs.Routes.{AreRising};
ghost use Rattle.route_table.specs.Lookups.{HasNone, IsLongest, cut_number};

use crate::putting::{is_held, place_of};
use crate::route::Route;

/// The place of the route of the longest prefix that has the address: 32 bits are tried first, and then ever fewer.
pub fn longest_place(routes: &[Route], address: u32) -> Option<usize>
    requires { AreRising routes.now }
    ensures { MatchOption result (HasNone routes.now address)
        (λ place. (place < length routes.now)
        × ((d : Route) → IsLongest routes.now address (slice_index_or routes.now place d))) }
{
    for rest in 0..33 {
        let wanted = cut_number(address, rest);
        let place = place_of(routes, wanted);
        if is_held(routes, wanted, place) {
            return Some(place);
        }
    }
    None
}

/// The number of the prefix that has the address and leaves so many of its last bits open.
fn cut_number(address: u32, rest: u32) -> u64
    requires { rest ≤ 32 }
    ensures { result ≡ cut_number address rest }
{
    let size = 1u64 << rest;
    u64::from(address) / size * size * 64 + u64::from(32 - rest)
}
