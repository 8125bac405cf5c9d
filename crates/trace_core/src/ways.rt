//! Places at which a packet may take one of several ways.
ghost use Rattle.std.specs.Prelude.{◌≡◌, ◌<◌, ℕ, List, Some, length, slice_get};
ghost use Rattle.trace_core.specs.Traces.{IsInside};
ghost use Rattle.trace_core.specs.declared.step.Step.{Step as StepOf};

use crate::step::Step;

/// Places, numbered from 0, at each of which a packet may take one of several ways.
pub trait Ways {
    // How many places there are, and what may become of a packet at one of them.
    ghost many: { Self → ℕ };

    ghost ways: { Self → ℕ → List StepOf };

    /// How many ways there are at a place.
    fn count(&self, place: usize) -> usize
        requires { place < many self.now }
        ensures { result ≡ length (ways self.now place) };

    /// What becomes of a packet at a place by the way of this number, counted from 0.
    fn way(&self, place: usize, number: usize) -> Step
        requires place { place < many self.now }
        requires number { number < length (ways self.now place) }
        ensures is { slice_get (ways self.now place) number ≡ Some result }
        ensures inside { IsInside (many self.now) result };
}
