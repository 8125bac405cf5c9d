//! What is known of schedules that were played.
ghost use Rattle.std.specs.Prelude.{◌≡◌, ◌≤◌, OnOk, IfErr};
ghost use Rattle.losses.specs.Counts.{nothing, with_one};
ghost use Rattle.losses.specs.Causes.{IsFull};

use crate::fault::LossesFault;
use std::alloc::Global;
use std::marker::Model;

/// The most schedules that are played.
pub const SCHEDULE_LIMIT: u64 = 16_777_216;

/// How many schedules were played, how many of them cost more than is wanted, the greatest cost, and the fates of the first
/// schedule that cost so much.
#[derive(Drop)]
pub struct Tally {
    schedules: u64,
    apart: u64,
    worst: u64,
    named: Vec<bool>,
}

impl Model for Tally {
    ghost use Rattle.std.specs.Prelude.{◌≤◌};
    ghost use Rattle.losses.specs.Counts.{Count};

    ghost Value = { Count };

    ghost view = { λ t. record { schedules = t.schedules; apart = t.apart; worst = t.worst; named = t.named.items } };

    ghost invariant = { λ t. (t.apart ≤ t.schedules) × (t.schedules ≤ 16777216) };
}

impl Tally {
    /// No schedule. It takes no memory.
    pub fn new(alloc: Global) -> Tally
        ensures { result ≡ nothing }
    {
        Tally {
            schedules: 0,
            apart: 0,
            worst: 0,
            named: Vec::new(alloc),
        }
    }

    /// How many schedules were played.
    pub fn schedules(&self) -> u64
        ensures count { result ≡ self.now.schedules }
        ensures few { result ≤ 16777216 }
    {
        self.schedules
    }

    /// How many of them cost more than is wanted.
    pub fn apart(&self) -> u64
        ensures { result ≡ self.now.apart }
    {
        self.apart
    }

    /// The greatest cost.
    pub fn worst(&self) -> u64
        ensures { result ≡ self.now.worst }
    {
        self.worst
    }

    /// The fates of the first schedule that cost so much.
    pub fn named(&self) -> &[bool]
        ensures { result.now ≡ self.now.named }
    {
        self.named.as_slice()
    }

    /// One schedule more. `TooMany` comes exactly where there are 16,777,216 already.
    pub(crate) fn add(&mut self, wanted: u64, fates: &[bool], cost: u64) -> Result<(), LossesFault>
        ensures added { OnOk result (self.new ≡ with_one wanted self.old (record { fates = fates.now; cost = cost })) }
        ensures full { IfErr result (IsFull self.old.schedules) }
    {
        if self.schedules == SCHEDULE_LIMIT {
            return Err(LossesFault::TooMany);
        }
        if cost > self.worst {
            self.named.clear();
            match self.named.extend_from_slice(fates) {
                Ok(()) => {}
                Err(_) => return Err(LossesFault::OutOfMemory),
            }
            self.worst = cost;
        }
        self.schedules += 1;
        if cost > wanted {
            self.apart += 1;
        }
        Ok(())
    }
}
