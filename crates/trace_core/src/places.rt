//! Places that say what becomes of a packet.
ghost use Rattle.std.specs.Prelude.{◌<◌, ℕ};
ghost use Rattle.trace_core.specs.Traces.{IsInside};
ghost use Rattle.trace_core.specs.declared.step.Step.{Step as StepOf};

use crate::step::Step;

/// Places, numbered from 0, each of which says what becomes of a packet there.
pub trait Places {
    // How many places there are, and what becomes of a packet at one of them.
    ghost many: { Self → ℕ };

    ghost is: { Self → ℕ → StepOf → Type 0 };

    /// What becomes of a packet at a place. Where it goes on, the next place is one of these too.
    fn step(&self, place: usize) -> Step
        requires { place < many self.now }
        ensures is { is self.now place result }
        ensures inside { IsInside (many self.now) result };
}
