//! What an end says of all moves: functions without a body, whose contracts are the laws.
ghost use Rattle.std.specs.Prelude.{ℕ};
ghost use Rattle.trace_core.specs.declared.step.Step.{Step};
ghost use Rattle.trace_core.specs.declared.step.Traced.{Traced};
ghost use Rattle.trace_core.specs.Traces.{IsTraced, by};
ghost use Rattle.trace_core.specs.Fates.{IsFate};

/// Where each place says one thing, the end is what becomes of the packet. Where it arrives, or is lost, it makes just the
/// moves to there. Where it loops, it can be moved on after any number of moves, and is always at one of the places of its way.
pub fn fate_law()
    ensures { (step : ℕ → Step) (from : ℕ) (traced : Traced) → IsTraced (by step) from traced
        → IsFate step from traced }
{}
