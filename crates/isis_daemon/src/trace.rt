//! The command `trace`: what becomes of a packet after a script.
ghost use Rattle.std.specs.Prelude.{◌≡◌, ◌≤◌, ℕ, List};
ghost use Rattle.isis_edge.specs.Faults.{Rose};
ghost use Rattle.isis_edge.specs.Told.{Took};
ghost use Rattle.isis_daemon.specs.Runs.{IsTakenWithin, IsDoneUnlessMemory};
ghost use Rattle.isis_daemon.specs.TraceEnds.{TraceEndsOn, TraceEnds, IsTraceable};

use crate::status::{INPUT_LIMIT, Status};
use isis_edge::{Sink, Source, read_whole};
use lab_text::read_script;
use std::alloc::Global;
use trace_text::write_trace;

/// Reads a script, plays it, and writes the trace of a packet from the router of this name to an address.
pub(crate) fn trace<I: Source, O: Sink>(
    alloc: Global,
    name: &str,
    address: u32,
    input: &mut I,
    output: &mut O,
) -> Status
    ensures usage { ¬ (result ≡ Status.Usage) }
    ensures ends { TraceEnds name.now address (I.gave input.old) (I.gave input.new) (I.ended input.new)
        (O.put output.old) (O.put output.new) result }
    ensures taken { IsTakenWithin (I.gave input.old) (I.gave input.new) }
    ensures read_fault { result ≡ Status.ReadFault
        → Rose (I.faults input.old) (I.faults input.new) }
    ensures write_fault { result ≡ Status.WriteFault
        → Rose (O.faults output.old) (O.faults output.new) }
    ensures complete { (octets : List ℕ) → Took (I.gave input.old) (I.gave input.new) octets → IsTraceable name.now octets
        → ¬ Rose (I.faults input.old) (I.faults input.new)
        → ¬ Rose (O.faults output.old) (O.faults output.new)
        → IsDoneUnlessMemory result }
    ensures later { (I.faults input.old ≤ I.faults input.new)
        × (O.faults output.old ≤ O.faults output.new) }
{
    let octets = match read_whole(alloc, input, INPUT_LIMIT) {
        Ok(octets) => octets,
        Err(fault) => return Status::from(fault),
    };
    trace_after(alloc, octets.as_slice(), name, address, output)
}

/// The trace after the script that a text is read as.
fn trace_after<O: Sink>(
    alloc: Global,
    text: &[u8],
    name: &str,
    address: u32,
    output: &mut O,
) -> Status
    ensures ends { TraceEndsOn name.now address text.now (O.put output.old)
        (O.put output.new) result }
    ensures write_fault { result ≡ Status.WriteFault
        → Rose (O.faults output.old) (O.faults output.new) }
    ensures later { O.faults output.old ≤ O.faults output.new }
{
    let script = match read_script(alloc, text) {
        Ok(script) => script,
        Err(fault) => return Status::from(fault),
    };
    let end = write_trace(alloc, &script, name, address, output);
    drop(script);
    match end {
        Ok(()) => Status::Done,
        Err(fault) => Status::from(fault),
    }
}
