//! The command `weave`: journals woven into the schedule of a lab script.
ghost use Rattle.std.specs.Prelude.{◌≡◌, ◌≤◌, ℕ, List};
ghost use Rattle.isis_edge.specs.Faults.{Rose};
ghost use Rattle.isis_edge.specs.Told.{Took};
ghost use Rattle.isis_daemon.specs.Runs.{IsTakenWithin, IsDoneUnlessMemory};
ghost use Rattle.isis_daemon.specs.WeaveEnds.{WeaveEndsOn, WeaveEnds, CanBeWoven};

use crate::status::{INPUT_LIMIT, Status};
use isis_edge::{Sink, Source, read_whole};
use std::alloc::Global;
use weave_text::laws::weavable_law;
use weave_text::write_weave;

/// Reads a text, weaves the journals in it, and writes the lab script of their schedule.
pub(crate) fn weave<I: Source, O: Sink>(alloc: Global, input: &mut I, output: &mut O) -> Status
    ensures usage { ¬ (result ≡ Status.Usage) }
    ensures ends { WeaveEnds (I.gave input.old) (I.gave input.new) (I.ended input.new) (O.put output.old)
        (O.put output.new) result }
    ensures taken { IsTakenWithin (I.gave input.old) (I.gave input.new) }
    ensures read_fault { result ≡ Status.ReadFault
        → Rose (I.faults input.old) (I.faults input.new) }
    ensures write_fault { result ≡ Status.WriteFault
        → Rose (O.faults output.old) (O.faults output.new) }
    ensures complete { (octets : List ℕ) → Took (I.gave input.old) (I.gave input.new) octets → CanBeWoven octets
        → ¬ Rose (I.faults input.old) (I.faults input.new)
        → ¬ Rose (O.faults output.old) (O.faults output.new)
        → IsDoneUnlessMemory result }
    ensures later { (I.faults input.old ≤ I.faults input.new)
        × (O.faults output.old ≤ O.faults output.new) }
{
    weavable_law();
    let octets = match read_whole(alloc, input, INPUT_LIMIT) {
        Ok(octets) => octets,
        Err(fault) => return Status::from(fault),
    };
    weave_in(alloc, octets.as_slice(), output)
}

/// The weaving of a text.
fn weave_in<O: Sink>(alloc: Global, text: &[u8], output: &mut O) -> Status
    ensures ends { WeaveEndsOn text.now (O.put output.old) (O.put output.new)
        result }
    ensures write_fault { result ≡ Status.WriteFault
        → Rose (O.faults output.old) (O.faults output.new) }
    ensures later { O.faults output.old ≤ O.faults output.new }
{
    match write_weave(alloc, text, output) {
        Ok(()) => Status::Done,
        Err(fault) => Status::from(fault),
    }
}
