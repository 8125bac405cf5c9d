//! What follows for all routers: functions without a body, whose contracts are the laws.
ghost use Rattle.std.specs.Prelude.{◌≡◌, ℕ, List, map};
ghost use Rattle.isis_base.specs.declared.level.Level.{Level};
ghost use Rattle.spf_tree.specs.declared.row.Row.{Row};
ghost use Rattle.spf_tree.specs.Walks.{AreLeast};
ghost use Rattle.route_table.specs.declared.route.Route.{Route};
ghost use Rattle.router_routes.specs.Costs.{cost_of};
ghost use Rattle.router_routes.specs.Outlooks.{Outlook};
ghost use Rattle.router_routes.specs.Candidates.{AreRoutesOf};
ghost use Rattle.router_routes.specs.Leaks.{leaks_of, leaked_by};

/// The plain program of costs tells the least ones (ISO 10589 C.2).
pub fn costs_law()
    ensures { (rows : List Row) (root : ℕ) → AreLeast rows root (cost_of rows root) }
{}

/// What a router leaks into a level is what its routes leak (RFC 5302 3).
pub fn leaks_law()
    ensures { (o : Outlook) (routes : List Route) (level : Level) → AreRoutesOf o routes
        → leaked_by level routes ≡ leaks_of o level }
{}
