//! What follows for all routers: functions without a body, whose contracts are the laws.
ghost use Rattle.std.specs.Prelude.{List};
ghost use Rattle.std.specs.List.{AllByRecursion};
ghost use Rattle.isis_base.specs.declared.level.Level.TheVariants as level;
ghost use Rattle.model_router.specs.LspPrefixes.{prefixes_of};
ghost use Rattle.model_router.specs.Routers.{Router};
ghost use Rattle.route_table.specs.declared.route.Route.{Route};
ghost use Rattle.router_routes.specs.Outlooks.{outlook_of};
ghost use Rattle.router_routes.specs.Candidates.{AreRoutesOf};
ghost use Rattle.router_core.specs.Givens.{given};
ghost use Rattle.router_core.specs.LeakedUp.{MayGoUp};

use route_leaking::laws::leak_laws;
use router_routes::laws::leaks_law;

/// Each prefix of the LSPs that a router wants at level 2 is one of its own, or has a route of rank One in the routes of the
/// state before the event, so none goes up that came down (RFC 5302 3.2).
pub fn leaked_up_law()
    ensures { (before r : Router) (routes : List Route) → AreRoutesOf (outlook_of before) routes
        → AllByRecursion (λ p. MayGoUp r.config routes p.0) (prefixes_of given before r level.Two) }
{
    leaks_law();
    leak_laws();
}
