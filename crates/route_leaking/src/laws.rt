//! What follows of what is leaked: functions without a body, whose contracts are the laws.
ghost use Rattle.std.specs.Prelude.{◌≡◌, ◌≤◌, ℕ, List, true, false};
ghost use Rattle.std.specs.List.{Contains};
ghost use Rattle.isis_tlv.specs.declared.prefix.PrefixItem.{PrefixItem};
ghost use Rattle.route_table.specs.declared.rank.Rank.TheVariants.{One, Two};
ghost use Rattle.route_table.specs.declared.route.Route.{Route};
ghost use Rattle.route_leaking.specs.Leaks.{leaked_metric, up_leaks, down_leaks};

/// What is leaked up is without the up/down bit and of a route of rank One; what is leaked down has the bit and is of a route
/// of rank Two. A metric is a prefix's.
pub fn leak_laws()
    ensures up { (routes : List Route) (item : PrefixItem) → Contains (up_leaks routes) item
        → (item.down ≡ false) × ((route : Route) × Contains routes route × (route.rank ≡ One)
        × (route.prefix ≡ item.prefix) × (item.metric ≡ leaked_metric route.cost)) }
    ensures down { (routes : List Route) (item : PrefixItem) → Contains (down_leaks routes) item
        → (item.down ≡ true) × ((route : Route) × Contains routes route × (route.rank ≡ Two)
        × (route.prefix ≡ item.prefix) × (item.metric ≡ leaked_metric route.cost)) }
    ensures metric { (cost : ℕ) → leaked_metric cost ≤ 4261412864 }
{}
