//! A pacer in memory.
ghost use Rattle.std.specs.Prelude.{◌≡◌, ◌+◌, ◌-◌, ◌^◌, ◌≤◌, ◌↔◌, ◌⊎◌, false, true};
ghost use Rattle.daemon_edge.specs.Pacing.{Paces};

use crate::pacing::{Pace, Pacer};
use std::time::Clock;

/// A pacer that gives so many seconds at once, and then ends.
#[derive(Drop, Debug)]
pub struct MemoryPacer {
    left: u64,
    given: u64,
    ended: bool,
}

impl MemoryPacer {
    /// A pacer of so many seconds.
    pub fn new(seconds: u64) -> MemoryPacer
        ensures { (result.left ≡ seconds) × (result.given ≡ 0) × (result.ended ≡ false) }
    {
        MemoryPacer {
            left: seconds,
            given: 0,
            ended: false,
        }
    }

    /// The seconds that it gave.
    pub fn given(&self) -> u64
        ensures { result ≡ self.now.given }
    {
        self.given
    }
}

impl Pacer for MemoryPacer {
    ghost given = { λ p. p.given };

    ghost ended = { λ p. p.ended };

    fn next<R: Clock>(&mut self, _rt: &R) -> Pace
        ensures paces { Paces self.old.given self.old.ended self.new.given self.new.ended result }
        ensures ends { (result ≡ Pace.End)
            ↔ ((self.old.ended ≡ true) ⊎ ((self.old.left ≡ 0) ⊎ (self.old.given ≡ 2 ^ 64 - 1))) }
        ensures left { result ≡ Pace.Second → self.old.left ≡ self.new.left + 1 }
    {
        if self.ended || self.left == 0 || self.given == u64::MAX {
            self.ended = true;
            return Pace::End;
        }
        self.left -= 1;
        self.given += 1;
        Pace::Second
    }
}
