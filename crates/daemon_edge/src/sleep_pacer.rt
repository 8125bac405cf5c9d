//! A pacer that sleeps.
ghost use Rattle.std.specs.Prelude.{◌≡◌, false};

use crate::pacing::{Pace, Pacer};
use std::thread;
use std::time::{Clock, Duration};

/// A pacer that sleeps a second before it gives it. Once its count stands at its last value it ends.
#[derive(Drop, Debug)]
pub struct SleepPacer {
    given: u64,
    ended: bool,
}

impl SleepPacer {
    /// No second was given yet.
    pub fn new() -> SleepPacer
        ensures given { ⟦<SleepPacer as Pacer>⟧.given result ≡ 0 }
        ensures ended { ⟦<SleepPacer as Pacer>⟧.ended result ≡ false }
    {
        SleepPacer {
            given: 0,
            ended: false,
        }
    }
}

impl Pacer for SleepPacer {
    ghost given = { λ p. p.given };

    ghost ended = { λ p. p.ended };

    fn next<R: Clock>(&mut self, rt: &R) -> Pace {
        if self.ended || self.given == u64::MAX {
            self.ended = true;
            return Pace::End;
        }
        thread::sleep(rt, Duration::from_secs(1));
        self.given += 1;
        Pace::Second
    }
}
