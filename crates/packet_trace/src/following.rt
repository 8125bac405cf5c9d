//! The packet followed to its end.
ghost use Rattle.std.specs.Prelude.{◌<◌, length, IfOk};
ghost use Rattle.trace_core.specs.Traces.{IsTraced, by};
ghost use Rattle.trace_core.specs.Whichever.{AreOutcomes};
ghost use Rattle.packet_trace.specs.Steps.{step_at, steps_at};

use crate::forwarder::Forwarder;
use crate::packets::Packets;
use isis_base::OutOfMemory;
use std::alloc::Global;
use trace_core::{Outcomes, Traced, trace, whichever};

/// Follows a packet to an address from a router, each time by the route that the router looks up and its first next hop. The
/// way ends where the packet is at a router whose own the prefix is, is lost, or comes to a router where it was. Routers are
/// numbered by their places. It takes memory for their places on the way.
pub fn follow(
    alloc: Global,
    forwarders: &[Forwarder],
    from: usize,
    address: u32,
) -> Result<Traced, OutOfMemory>
    requires { from < length forwarders.now }
    ensures { IfOk result (λ traced.
        IsTraced (by (step_at forwarders.now address)) from traced) }
{
    let packets = Packets {
        forwarders,
        address,
    };
    match trace(alloc, &packets, from) {
        Ok(traced) => Ok(traced),
        Err(_) => Err(OutOfMemory),
    }
}

/// What may become of a packet to an address from a router, whichever of the next hops of equal cost each router hands it to.
pub fn outcomes(
    alloc: Global,
    forwarders: &[Forwarder],
    from: usize,
    address: u32,
) -> Result<Outcomes, OutOfMemory>
    requires { from < length forwarders.now }
    ensures { IfOk result (λ outcomes.
        AreOutcomes (steps_at forwarders.now address) from outcomes) }
{
    let packets = Packets {
        forwarders,
        address,
    };
    match whichever(alloc, &packets, from) {
        Ok(outcomes) => Ok(outcomes),
        Err(_) => Err(OutOfMemory),
    }
}
