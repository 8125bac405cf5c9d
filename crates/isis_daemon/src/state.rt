//! The command `state`: the state of a daemon, by its configuration and its journal.
ghost use Rattle.std.specs.Prelude.{◌≡◌, ◌≤◌, ℕ, List};
ghost use Rattle.isis_edge.specs.Faults.{Rose};
ghost use Rattle.isis_edge.specs.Told.{Took};
ghost use Rattle.isis_daemon.specs.Runs.{IsDoneUnlessMemory};
ghost use Rattle.isis_daemon.specs.StateRuns.{HasState, StateRan};

use crate::options::StateOptions;
use crate::status::Status;
use isis_edge::{Sink, Source};
use state_replay::write_state;
use std::alloc::Global;

/// Reads a configuration and the journal of its daemon line by line, replays the journal, and writes the router's state.
pub(crate) fn state<I: Source, O: Sink>(
    alloc: Global,
    options: StateOptions,
    input: &mut I,
    output: O,
) -> (O, Status)
    requires boot { (1 ≤ options.boot) × (options.boot ≤ 16777215) }
    requires entries { options.entries ≤ 1000000000000 }
    ensures usage { ¬ (result.1 ≡ Status.Usage) }
    ensures started { ¬ (result.1 ≡ Status.NotStarted) }
    ensures ran { StateRan options.boot options.entries (I.gave input.old) (I.gave input.new) (I.ended input.new)
        (O.put output) (O.put result.0) result.1 }
    ensures read_fault { result.1 ≡ Status.ReadFault
        → Rose (I.faults input.old) (I.faults input.new) }
    ensures write_fault { result.1 ≡ Status.WriteFault
        → Rose (O.faults output) (O.faults result.0) }
    ensures complete { (octets : List ℕ) → Took (I.gave input.old) (I.gave input.new) octets
        → HasState options.boot options.entries octets (I.ended input.new)
        → ¬ Rose (I.faults input.old) (I.faults input.new)
        → ¬ Rose (O.faults output) (O.faults result.0)
        → IsDoneUnlessMemory result.1 }
    ensures later { (I.faults input.old ≤ I.faults input.new)
        × (O.faults output ≤ O.faults result.0) }
{
    let mut output = output;
    match write_state(alloc, options.boot, options.entries, input, &mut output) {
        Ok(()) => (output, Status::Done),
        Err(fault) => (output, Status::from(fault)),
    }
}
