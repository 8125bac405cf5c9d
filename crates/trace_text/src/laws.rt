//! What follows of a packet that is followed: functions without a body of their own, whose contracts are the laws.
ghost use Rattle.std.specs.Prelude.{◌≡◌, ℕ, List, Some, map};
ghost use Rattle.std.specs.List.{Contains};
ghost use Rattle.model_router.specs.Places.{nth};
ghost use Rattle.model_router.specs.Routers.{Router};
ghost use Rattle.route_table.specs.declared.route.Route.{Route};
ghost use Rattle.router_routes.specs.Candidates.{AreRoutesOf};
ghost use Rattle.trace_core.specs.declared.outcomes.Outcomes.{Outcomes};
ghost use Rattle.trace_core.specs.declared.step.Traced.{Traced};
ghost use Rattle.trace_core.specs.Traces.{IsTraced, by};
ghost use Rattle.trace_core.specs.Whichever.{AreOutcomes};
ghost use Rattle.packet_trace.specs.declared.forwarder.Forwarder.{Forwarder};
ghost use Rattle.packet_trace.specs.Steps.{step_at, steps_at};
ghost use Rattle.forward_views.specs.Walked.{IsRouteOf};
ghost use Rattle.forward_views.specs.Looks.{Look, outlook, AreAlike, IsOwner};
ghost use Rattle.forward_views.specs.Forwarded.{router_in};
ghost use Rattle.trace_text.specs.Forwarders.{forwarder_of, AreForwarders};
ghost use Rattle.trace_text.specs.Arrivals.{AreFound, IsArrived, arrives_alone};

use forward_views::laws::forward_law;
use packet_trace::laws::lookup_law;
use route_table::laws::routes_laws;

/// Where routers are alike, and an address is looked up as a prefix that one of them owns, a packet that is followed from a
/// router with a route of the prefix arrives at the owner, by next hops of that prefix, at the cost of the first route.
pub fn trace_law()
    ensures { (looks : List Look) (prefix address from : ℕ) (owner first : Look) (route : Route)
        (traced : Traced)
        → AreAlike looks → IsOwner looks prefix owner → AreFound looks prefix address
        → nth looks from ≡ Some first → IsRouteOf (router_in first) prefix route
        → IsTraced (by (step_at (map forwarder_of looks) address)) from traced
        → IsArrived looks prefix owner route traced }
{
    forward_law();
    routes_laws();
}

/// There it arrives whichever next hops it takes: nothing else may become of it.
pub fn whichever_law()
    ensures { (looks : List Look) (prefix address from : ℕ) (owner first : Look) (route : Route)
        (traced : Traced) (outcomes : Outcomes)
        → AreAlike looks → IsOwner looks prefix owner → AreFound looks prefix address
        → nth looks from ≡ Some first → IsRouteOf (router_in first) prefix route
        → IsTraced (by (step_at (map forwarder_of looks) address)) from traced
        → AreOutcomes (steps_at (map forwarder_of looks) address) from outcomes
        → outcomes ≡ arrives_alone }
{
    forward_law();
    routes_laws();
}

/// What packets meet at routers is one thing: the routes of each are one list, however they are found.
pub fn forwarders_laws()
    ensures one { (routers : List Router) (a b : List Forwarder)
        → AreForwarders routers a → AreForwarders routers b → a ≡ b }
    ensures looks { (looks : List Look)
        → ((look : Look) → Contains looks look → AreRoutesOf (outlook look) look.routes)
        → AreForwarders (map (λ look. look.router) looks) (map forwarder_of looks) }
{
    routes_laws();
}
