//! The trace after a script, or why there is none.
ghost use Rattle.std.specs.Prelude.{◌≡◌, ◌<◌, true, length, IfOk};
ghost use Rattle.lab_script.specs.Scripts.{is_lab_script, names_in};
ghost use Rattle.trace_text.specs.Traces.{Finds, FindsFrom, IsTraceIn};

use crate::forwarders::forwarders_of;
use crate::laws::{forwarders_laws, trace_law, whichever_law};
use isis_base::OutOfMemory;
use lab_text::{Network, Script, play_script};
use packet_trace::{Forwarder, follow, outcomes};
use route_table::laws::routes_laws;
use std::alloc::Global;
use trace_core::{Outcomes, Traced};
use walk_text::{WalkFault, WalkReason, alike_facts};

/// A trace, the routers that it is of, and what else may become of the packet.
#[derive(Drop)]
pub(crate) struct Trace {
    pub(crate) forwarders: Vec<Forwarder>,
    pub(crate) traced: Traced,
    pub(crate) outcomes: Outcomes,
}

/// The trace of a packet to an address from the router of this name, over the routers at a script's end.
pub(crate) fn find_trace(
    alloc: Global,
    script: &Script<'_>,
    name: &str,
    address: u32,
) -> Result<Trace, WalkFault>
    ensures { Finds script.now name.now address result }
{
    if !script.is_lab() {
        return Err(WalkFault::NoWalk(WalkReason::Keys));
    }
    let Some(from) = script.router(name) else {
        return Err(WalkFault::NoWalk(WalkReason::Name));
    };
    find_from(alloc, script, from, address)
}

/// The trace from the router of this number.
fn find_from(
    alloc: Global,
    script: &Script<'_>,
    from: usize,
    address: u32,
) -> Result<Trace, WalkFault>
    requires lab { is_lab_script script.now ≡ true }
    requires there { from < length (names_in script.now) }
    ensures { FindsFrom script.now from address result }
{
    let net = match play_script(alloc, script) {
        Ok(net) => net,
        Err(fault) => return Err(WalkFault::from(fault)),
    };
    let found = find_in(alloc, &net, from, address);
    drop(net);
    match found {
        Ok(trace) => Ok(trace),
        Err(OutOfMemory) => Err(WalkFault::OutOfMemory),
    }
}

/// The trace over the routers of a network.
fn find_in(alloc: Global, net: &Network, from: usize, address: u32) -> Result<Trace, OutOfMemory>
    requires { from < length net.now.seen.routers }
    ensures { IfOk result (λ trace. IsTraceIn net.now.seen.routers from address trace) }
{
    // Where there is a walk, the trace is that walk.
    alike_facts(net);
    trace_law();
    whichever_law();
    forwarders_laws();
    routes_laws();
    let forwarders = match forwarders_of(alloc, net) {
        Ok(forwarders) => forwarders,
        Err(error) => return Err(error),
    };
    let traced = match follow(alloc, forwarders.as_slice(), from, address) {
        Ok(traced) => traced,
        Err(error) => return Err(error),
    };
    match outcomes(alloc, forwarders.as_slice(), from, address) {
        Ok(outcomes) => Ok(Trace {
            forwarders,
            traced,
            outcomes,
        }),
        Err(error) => Err(error),
    }
}
