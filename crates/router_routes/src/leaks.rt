//! What is leaked (RFC 5302 3).
ghost use Rattle.std.specs.Prelude.{◌≡◌, map, IfOk};
ghost use Rattle.router_routes.specs.Outlooks.{Outlook};
ghost use Rattle.router_routes.specs.Leaks.{item_pair, leaked_items, leaks_of, pair_of};
ghost use Rattle.router_routes.specs.Following.{IsFollowing};

use crate::following::Following;
use isis_base::{Level, OutOfMemory, Prefix};
use isis_tlv::PrefixItem;
use route_leaking::{down_into_l1, up_into_l2};
use route_table::Routes;
use std::alloc::Global;

impl Following {
    /// The prefixes that are leaked into a level, with the metrics that they are leaked at, in order
    /// (RFC 5302 3, RFC 5305 4): those of level 1 in level 2, and those of level 2 in level 1. A
    /// prefix of one's own is none of them.
    pub fn leaks(&self, level: Level) -> Result<Vec<(Prefix, u32)>, OutOfMemory>
        ensures { (o : Outlook) → IsFollowing o self.now
            → IfOk result (λ list. map pair_of list.items ≡ leaks_of o level) }
    {
        let items = leaked(self.alloc, &self.routes, level)?;
        pairs_of(self.alloc, items.as_slice())
    }
}

/// What these routes leak into a level, as it is told there.
pub(crate) fn leaked(
    alloc: Global,
    routes: &Routes,
    level: Level,
) -> Result<Vec<PrefixItem>, OutOfMemory>
    ensures { IfOk result (λ items. items.items ≡ leaked_items level routes.now) }
{
    match level {
        Level::One => down_into_l1(alloc, routes),
        Level::Two => up_into_l2(alloc, routes),
    }
}

/// Prefixes with their metrics.
pub(crate) fn pairs_of(
    alloc: Global,
    items: &[PrefixItem],
) -> Result<Vec<(Prefix, u32)>, OutOfMemory>
    ensures { IfOk result (λ list. list.items ≡ map item_pair items.now) }
{
    let mut list = Vec::new(alloc);
    for item in items {
        match list.push((item.prefix, item.metric)) {
            Ok(()) => {}
            Err(_) => return Err(OutOfMemory),
        }
    }
    Ok(list)
}
