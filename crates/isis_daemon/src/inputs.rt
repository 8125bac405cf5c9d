//! What needs no ports and no threads: a walk, a trace, a weaving, and what makes a text of its input.
ghost use Rattle.std.specs.Prelude.{◌≡◌, ◌≤◌, ℕ, List, map, string_bytes, IfSome, IsOk, ◌↔◌};
ghost use Rattle.isis_edge.specs.Faults.{Rose};
ghost use Rattle.isis_edge.specs.Told.{Took};
ghost use Rattle.lab_grid.specs.GridRuns.{grid_end};
ghost use Rattle.isis_daemon.specs.Commands.{command_of, grid_size_of, walk_of, trace_of, weave_of, AreNoInput};
ghost use Rattle.isis_daemon.specs.GridEnds.{GridEnds};
ghost use Rattle.isis_daemon.specs.Runs.{Ends, IsTaken, IsTakenWithin, IsDoneUnlessMemory, IsWrittenUnlessMemory};
ghost use Rattle.isis_daemon.specs.TraceEnds.{TraceEnds, IsTraceable};
ghost use Rattle.isis_daemon.specs.WalkEnds.{WalkEnds, IsWalkable};
ghost use Rattle.isis_daemon.specs.WeaveEnds.{WeaveEnds, CanBeWoven};

use crate::command::{trace_of, walk_of, weave_of};
use crate::status::Status;
use crate::texts::run_text;
use crate::trace::trace;
use crate::walk::walk;
use crate::weaving::weave;
use isis_edge::{Sink, Source};
use std::alloc::Global;

/// Runs what needs no ports and no threads. The words are tested first, then the input is read.
pub(crate) fn run_input<I: Source, O: Sink>(
    alloc: Global,
    words: &[String],
    input: &mut I,
    output: O,
) -> (O, Status)
    ensures usage { (result.1 ≡ Status.Usage) ↔ AreNoInput (map string_bytes words.now) }
    ensures untouched { result.1 ≡ Status.Usage
        → (I.gave input.new ≡ I.gave input.old) × (I.ended input.new ≡ I.ended input.old) × (I.faults input.new ≡ I.faults input.old)
        × (result.0 ≡ output) }
    ensures started { ¬ (result.1 ≡ Status.NotStarted) }
    ensures ends { IfSome (command_of (map string_bytes words.now))
        (λ command. Ends command (I.gave input.old) (I.gave input.new) (I.ended input.new) (O.put output)
        (O.put result.0) result.1) }
    ensures taken { IsTakenWithin (I.gave input.old) (I.gave input.new) }
    ensures read_fault { result.1 ≡ Status.ReadFault
        → Rose (I.faults input.old) (I.faults input.new) }
    ensures write_fault { result.1 ≡ Status.WriteFault
        → Rose (O.faults output) (O.faults result.0) }
    ensures complete { IfSome (command_of (map string_bytes words.now))
        (λ command. (octets : List ℕ) → Took (I.gave input.old) (I.gave input.new) octets → IsTaken command octets
        → ¬ Rose (I.faults input.old) (I.faults input.new)
        → ¬ Rose (O.faults output) (O.faults result.0)
        → IsWrittenUnlessMemory command result.1) }
    ensures later { (I.faults input.old ≤ I.faults input.new)
        × (O.faults output ≤ O.faults result.0) }
    ensures grid { IfSome (grid_size_of (map string_bytes words.now))
        (λ size. GridEnds size (O.put output) (O.put result.0) result.1) }
    ensures grid_unread { IfSome (grid_size_of (map string_bytes words.now))
        (λ _. (I.gave input.new ≡ I.gave input.old) × (I.ended input.new ≡ I.ended input.old) × (I.faults input.new ≡ I.faults input.old)) }
    ensures grid_complete { IfSome (grid_size_of (map string_bytes words.now))
        (λ size. IsOk (grid_end size) → ¬ Rose (O.faults output) (O.faults result.0)
        → IsDoneUnlessMemory result.1) }
    ensures walk { IfSome (walk_of (map string_bytes words.now)) (λ asked.
        WalkEnds asked.0 asked.1 (I.gave input.old) (I.gave input.new) (I.ended input.new) (O.put output)
        (O.put result.0) result.1) }
    ensures walk_complete { IfSome (walk_of (map string_bytes words.now)) (λ asked.
        (octets : List ℕ) → Took (I.gave input.old) (I.gave input.new) octets → IsWalkable asked.0 asked.1 octets
        → ¬ Rose (I.faults input.old) (I.faults input.new)
        → ¬ Rose (O.faults output) (O.faults result.0)
        → IsDoneUnlessMemory result.1) }
    ensures trace { IfSome (trace_of (map string_bytes words.now)) (λ asked.
        TraceEnds asked.0 asked.1 (I.gave input.old) (I.gave input.new) (I.ended input.new) (O.put output)
        (O.put result.0) result.1) }
    ensures trace_complete { IfSome (trace_of (map string_bytes words.now)) (λ asked.
        (octets : List ℕ) → Took (I.gave input.old) (I.gave input.new) octets → IsTraceable asked.0 octets
        → ¬ Rose (I.faults input.old) (I.faults input.new)
        → ¬ Rose (O.faults output) (O.faults result.0)
        → IsDoneUnlessMemory result.1) }
    ensures weave { IfSome (weave_of (map string_bytes words.now)) (λ _.
        WeaveEnds (I.gave input.old) (I.gave input.new) (I.ended input.new) (O.put output) (O.put result.0)
        result.1) }
    ensures weave_complete { IfSome (weave_of (map string_bytes words.now)) (λ _.
        (octets : List ℕ) → Took (I.gave input.old) (I.gave input.new) octets → CanBeWoven octets
        → ¬ Rose (I.faults input.old) (I.faults input.new)
        → ¬ Rose (O.faults output) (O.faults result.0)
        → IsDoneUnlessMemory result.1) }
{
    let mut output = output;
    if let Some(asked) = walk_of(words) {
        let status = walk(alloc, asked.name, asked.prefix, input, &mut output);
        return (output, status);
    }
    if let Some(asked) = trace_of(words) {
        let status = trace(alloc, asked.name, asked.address, input, &mut output);
        return (output, status);
    }
    if let Some(()) = weave_of(words) {
        let status = weave(alloc, input, &mut output);
        return (output, status);
    }
    run_text(alloc, words, input, output)
}
