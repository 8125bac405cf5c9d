//! What follows for all routes: functions without a body, whose contracts are the laws.
ghost use Rattle.std.specs.Prelude.{ℕ, List};
ghost use Rattle.route_table.specs.declared.route.Route.{Route};
ghost use Rattle.packet_trace.specs.Steps.{IsLookedUp, looked_up};

/// What is looked up is the route of the longest prefix that has the address, or nothing where no prefix has it (RFC 1812
/// 5.2.4.3).
pub fn lookup_law()
    ensures { (routes : List Route) (address : ℕ) → IsLookedUp routes address (looked_up routes address) }
{}
