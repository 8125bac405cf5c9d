//! A part of all schedules.
ghost use Rattle.std.specs.Prelude.{◌≡◌, ◌<◌, ◌%◌, ◌==◌};

/// The schedules whose first loss has a place that is equal to `number` modulo `of`, where the run's deliveries have the places
/// 0, 1 and so on. The schedule without a loss is in part 0.
#[derive(Clone, Copy, Debug, PartialEq, Eq)]
pub struct Part {
    /// The number of the part, from 0 on.
    pub number: usize,
    /// How many parts there are, at least one.
    pub of: usize,
}

impl Part {
    /// The one part that has all schedules.
    pub fn whole() -> Part
        ensures number { result.number ≡ 0 }
        ensures of { result.of ≡ 1 }
    {
        Part { number: 0, of: 1 }
    }

    /// Whether the part has the schedules whose first loss has this place.
    pub(crate) fn has(self, place: usize) -> bool
        requires { 0 < self.of }
        ensures { result ≡ (place % self.of == self.number) }
    {
        place % self.of == self.number
    }
}
