//! The calls of something in memory: their numbers, which of them are to fail, and the faults so far.
ghost use Rattle.std.specs.Prelude.{◌≡◌, ◌↔◌, IsTrue};
ghost use Rattle.isis_edge.specs.Faults.{one_more};
ghost use Rattle.isis_edge.specs.Memory.{IsToFail};

/// The calls and the faults of an object in memory, and the numbers of the calls that are to fail, from 1. Both
/// counts stand still at their type's end; the calls after that fail no more.
#[derive(Drop, Debug)]
pub struct Calls {
    pub failing: Vec<u64>,
    pub made: u64,
    pub faults: u64,
}

impl Calls {
    /// Counts a call, and says whether it is to fail.
    pub fn next_fails(&mut self) -> bool
        ensures fails { IsTrue result ↔ IsToFail self.old.failing.items self.old.made }
        ensures counted { self.new ≡ record self.old { made = one_more self.old.made } }
    {
        let failing = self.failing.as_slice();
        let Some(number) = self.made.checked_add(1) else {
            return false;
        };
        let is_listed = failing.contains(&number);
        self.made = number;
        is_listed
    }

    /// Counts a fault.
    pub fn count_fault(&mut self)
        ensures { self.new ≡ record self.old { faults = one_more self.old.faults } }
    {
        self.faults = self.faults.saturating_add(1);
    }
}
