//! Whether a router's own LSPs say what its own routes are.
ghost use Rattle.std.specs.Prelude.{◌≡◌, ◌<◌, ◌^◌, false, map, IfOk, MatchBool};
ghost use Rattle.std.specs.List.{list_any};
ghost use Rattle.std.specs.List.Sorted.{IsPermutation};
ghost use Rattle.route_table.specs.Ranks.{prefix_number};
ghost use Rattle.route_table.specs.Routes.{AreRising};
ghost use Rattle.forward_views.specs.Looks.{is_own, item_way, own_ways, IsSettled};
ghost use Rattle.walk_text.specs.Ways.{way_number, AreSmall};

use crate::level_one::level_one;
use crate::nodes::system_of;
use crate::test::Test;
use isis_base::{OutOfMemory, Prefix};
use isis_tlv::PrefixItem;
use lsp_view::{is_attached, reach};
use route_table::{Rank, Route};
use router_core::Router;
use std::alloc::Global;

/// That a router's own LSPs list just its own routes, none as come down, and don't say that it is attached (RFC 5302 3.2, ISO
/// 10589 7.2.9.2).
#[derive(Drop)]
pub(crate) struct Settled {
    pub(crate) alloc: Global,
}

impl Test for Settled {
    ghost needs = { λ test r. r.config.runs.two ≡ false };

    ghost has = { λ test look. IsSettled look };

    fn passes(&self, router: &Router) -> Result<bool, OutOfMemory> {
        let store = level_one(router);
        let system = system_of(router);
        let items = reach(self.alloc, store, system)?;
        if is_attached(store, system) || has_down(items.as_slice()) {
            return Ok(false);
        }
        lists_own(self.alloc, items.as_slice(), router.routes().list())
    }
}

/// Whether a prefix is listed as one that came down.
fn has_down(items: &[PrefixItem]) -> bool
    ensures { result ≡ list_any (λ item. item.down) items.now }
{
    items.iter().any(|item| item.down)
}

/// Whether the prefixes that are listed are a router's own routes, in whatever order.
fn lists_own(alloc: Global, items: &[PrefixItem], routes: &[Route]) -> Result<bool, OutOfMemory>
    requires { AreRising routes.now }
    ensures { IfOk result (λ yes. MatchBool yes
        (IsPermutation (map item_way items.now) (own_ways routes.now))
        (IsPermutation (map item_way items.now) (own_ways routes.now) → ⊥)) }
{
    let mut listed = listed_numbers(alloc, items)?;
    listed.sort_unstable();
    let own = own_numbers(alloc, routes)?;
    Ok(listed.as_slice() == own.as_slice())
}

/// The numbers of the prefixes that are listed, with their metrics.
fn listed_numbers(alloc: Global, items: &[PrefixItem]) -> Result<Vec<u128>, OutOfMemory>
    ensures { IfOk result (λ numbers. (numbers.items ≡ map way_number (map item_way items.now))
        × AreSmall (map item_way items.now)) }
{
    let mut numbers = Vec::new(alloc);
    for item in items {
        numbers.push(number_of(item.prefix, u64::from(item.metric)))?;
    }
    Ok(numbers)
}

/// The numbers of a router's own routes, with their costs.
fn own_numbers(alloc: Global, routes: &[Route]) -> Result<Vec<u128>, OutOfMemory>
    ensures { IfOk result (λ numbers. (numbers.items ≡ map way_number (own_ways routes.now))
        × AreSmall (own_ways routes.now)) }
{
    let mut numbers = Vec::new(alloc);
    for route in routes {
        if is_for_own(route) {
            numbers.push(number_of(route.prefix, route.cost))?;
        }
    }
    Ok(numbers)
}

/// Whether a route is a router's own.
fn is_for_own(route: &Route) -> bool
    ensures { result ≡ is_own route.now }
{
    route.rank == Rank::Own
}

/// A prefix and a cost as one number, which rises by prefix and then by cost.
fn number_of(prefix: Prefix, cost: u64) -> u128
    ensures is { result ≡ way_number (prefix_number prefix, cost) }
    ensures small { cost < 2 ^ 64 }
{
    let prefix = u128::from(prefix.address()) * 64 + u128::from(prefix.length());
    (prefix << 64) + u128::from(cost)
}
