//! A part of all schedules, as words say it.
ghost use Rattle.std.specs.Prelude.{◌≡◌, ◌<◌, ◌≤◌, ◌-◌};

use losses::Part;

/// A part of all schedules: the word `I/M`.
#[derive(Clone, Copy, Debug, PartialEq, Eq)]
pub struct PartOf {
    /// I, from 1 to M.
    pub number: u32,
    /// M, how many parts there are, at most 65,535.
    pub of: u32,
}

impl PartOf {
    /// The same part, by its number from 0 on.
    pub fn part(self) -> Part
        requires number { 1 ≤ self.number }
        requires of { self.number ≤ self.of }
        ensures number { result.number ≡ self.number - 1 }
        ensures of { result.of ≡ self.of }
        ensures some { 0 < result.of }
    {
        Part {
            number: self.number as usize - 1,
            of: self.of as usize,
        }
    }
}
