//! The prefixes of a table of routes that are leaked (RFC 5302 3).
ghost use Rattle.std.specs.Prelude.{◌≡◌, IfOk};
ghost use Rattle.route_leaking.specs.Leaks.{leaked_metric, leaks, up_leaks, down_leaks};

use isis_base::OutOfMemory;
use isis_base::numbers::PREFIX_METRIC;
use isis_tlv::PrefixItem;
use route_table::{Rank, Route, Routes};
use std::alloc::Global;

/// What a router of both levels says of level 1 in level 2: each route of rank One, without the up/down bit, at its cost or
/// the greatest metric. A route that came down has another rank, so it doesn't go up again.
pub fn up_into_l2(alloc: Global, routes: &Routes) -> Result<Vec<PrefixItem>, OutOfMemory>
    ensures { IfOk result (λ items. items.items ≡ up_leaks routes.now) }
{
    leaks(alloc, routes.list(), Rank::One, false)
}

/// What a router of both levels says of level 2 in level 1: each route of rank Two, with the up/down bit.
pub fn down_into_l1(alloc: Global, routes: &Routes) -> Result<Vec<PrefixItem>, OutOfMemory>
    ensures { IfOk result (λ items. items.items ≡ down_leaks routes.now) }
{
    leaks(alloc, routes.list(), Rank::Two, true)
}

/// The prefixes of the routes of a rank.
fn leaks(
    alloc: Global,
    routes: &[Route],
    rank: Rank,
    down: bool,
) -> Result<Vec<PrefixItem>, OutOfMemory>
    ensures { IfOk result (λ items. items.items ≡ leaks rank down routes.now) }
{
    let mut items = Vec::new(alloc);
    for route in routes {
        if route.rank == rank {
            let item = PrefixItem {
                prefix: route.prefix,
                metric: leaked_metric(route.cost),
                down,
            };
            match items.push(item) {
                Ok(()) => {}
                Err(_) => return Err(OutOfMemory),
            }
        }
    }
    Ok(items)
}

/// The metric that a cost is leaked at.
fn leaked_metric(cost: u64) -> u32
    ensures { result ≡ leaked_metric cost }
{
    cost.min(u64::from(PREFIX_METRIC)) as u32
}
