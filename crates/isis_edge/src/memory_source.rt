//! A source in memory.
ghost use Rattle.std.specs.Prelude.{◌≡◌, ◌<◌, ◌≤◌, ◌↔◌, [], false, length, min};
ghost use Rattle.isis_edge.specs.Faults.{Rose};
ghost use Rattle.isis_edge.specs.Sources.{Reads, OnFailed, UnlessFailed, IfGave};
ghost use Rattle.isis_edge.specs.Memory.{IsToFail, after_read};

use crate::calls::Calls;
use crate::source::{Got, Source};
use isis_base::Octets;
use std::marker::Model;

/// A source in memory. It gives at most `piece` octets a call, and exactly the calls whose numbers it was given
/// fail.
#[derive(Drop, Debug)]
pub struct MemorySource {
    octets: Octets,
    taken: usize,
    ended: bool,
    piece: usize,
    calls: Calls,
}

impl Model for MemorySource {
    ghost use Rattle.std.specs.Prelude.{◌<◌, ◌≤◌, length, take, drop};
    ghost use Rattle.isis_edge.specs.Memory.{MemoryInput};

    ghost Value = { MemoryInput };

    ghost view = { λ s. record {
      gave = take s.taken s.octets;
      ended = s.ended;
      left = drop s.taken s.octets;
      piece = s.piece;
      failing = s.calls.failing.items;
      calls = s.calls.made;
      faults = s.calls.faults;
    } };

    ghost invariant = { λ s. (s.taken ≤ length s.octets) × (0 < s.piece) };
}

impl MemorySource {
    /// A source of these octets. `piece` is at least 1; `failing` are the numbers of the calls that are to fail,
    /// from 1.
    pub fn new(octets: Octets, piece: usize, failing: Vec<u64>) -> MemorySource
        requires { 0 < piece }
        ensures { result
            ≡ record { gave = []; ended = false; left = octets; piece = piece; failing = failing.items; calls = 0; faults = 0 } }
    {
        let calls = Calls {
            failing,
            made: 0,
            faults: 0,
        };
        MemorySource {
            octets,
            taken: 0,
            ended: false,
            piece,
            calls,
        }
    }
}

impl Source for MemorySource {
    ghost gave = { λ s. s.gave };

    ghost ended = { λ s. s.ended };

    ghost faults = { λ s. s.faults };

    fn read(&mut self, into: &mut [u8]) -> Got
        requires { 0 < length into.old }
        ensures octets { Reads self.old.gave self.new.gave self.old.ended self.new.ended result
            into.new }
        ensures later { self.old.faults ≤ self.new.faults }
        ensures cause { OnFailed result (Rose self.old.faults self.new.faults) }
        ensures quiet { UnlessFailed result (self.new.faults ≡ self.old.faults) }
        ensures fails { (result ≡ Got.Failed) ↔ IsToFail self.old.failing self.old.calls }
        ensures count { IfGave result
            (λ count. count ≡ min (min self.old.piece (length into.old)) (length self.old.left)) }
        ensures after { self.new ≡ after_read self.old result }
    {
        if self.calls.next_fails() {
            self.calls.count_fault();
            return Got::Failed;
        }
        let left = &self.octets.as_slice()[self.taken..];
        if left.is_empty() {
            self.ended = true;
            return Got::End;
        }
        let count = self.piece.min(into.len()).min(left.len());
        into[..count].copy_from_slice(&left[..count]);
        self.taken += count;
        self.ended = false;
        Got::Some(count)
    }
}
