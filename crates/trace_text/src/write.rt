//! The call that writes the trace of a packet after a script.
ghost use Rattle.std.specs.Prelude.{◌≡◌, ◌≤◌, Err};
ghost use Rattle.isis_edge.specs.Faults.{Rose};
ghost use Rattle.walk_text.specs.declared.fault.WalkFault.TheVariants as failed;
ghost use Rattle.trace_text.specs.Traces.{TraceTextEnds};

use crate::find::find_trace;
use crate::lines::trace_text;
use isis_base::OutOfMemory;
use isis_edge::{Sink, WriteFailed, write_all};
use lab_text::Script;
use std::alloc::Global;
use walk_text::WalkFault;

/// Plays a script, and writes what becomes of a packet from the router of this name to an address: each router on its way with
/// the route that it goes by, the router that it is handed to, and how the way ends (RFC 1195 3.10). Whether links carry the
/// packet isn't said.
///
/// Before the run the answer is `NoWalk` where the script is a keys script, or has no router of this name. Then comes the first
/// line whose event is refused, or which passes a limit, as `run_script` says it. There is always a trace after the run.
/// Nothing is written before the trace is found.
pub fn write_trace<O: Sink>(
    alloc: Global,
    script: &Script<'_>,
    name: &str,
    address: u32,
    out: &mut O,
) -> Result<(), WalkFault>
    ensures ends { TraceTextEnds script.now name.now address (O.put out.old) (O.put out.new) result }
    ensures cause { result ≡ Err failed.Write → Rose (O.faults out.old) (O.faults out.new) }
    ensures later { O.faults out.old ≤ O.faults out.new }
{
    let trace = match find_trace(alloc, script, name, address) {
        Ok(trace) => trace,
        Err(fault) => return Err(fault),
    };
    let made = trace_text(alloc, script, name, address, &trace);
    drop(trace);
    let text = match made {
        Ok(text) => text,
        Err(OutOfMemory) => return Err(WalkFault::OutOfMemory),
    };
    match write_all(out, text.as_slice()) {
        Ok(()) => Ok(()),
        Err(WriteFailed) => Err(WalkFault::Write),
    }
}
