//! A sink in memory.
ghost use Rattle.std.specs.Prelude.{◌≡◌, ◌-◌, ◌<◌, ◌≤◌, ◌↔◌, ◌⊎◌, [], length, min, IfOk};
ghost use Rattle.isis_edge.specs.Faults.{Rose};
ghost use Rattle.isis_edge.specs.Sinks.{Writes, OnFailed, UnlessFailed, IfPut};
ghost use Rattle.isis_edge.specs.Memory.{IsToFail, after_write};

use crate::calls::Calls;
use crate::sink::{Put, Sink};
use isis_base::OutOfMemory;
use std::alloc::Global;
use std::marker::Model;

/// A sink in memory. It takes at most `piece` octets a call, and no more than its room has left. A call fails
/// exactly where its number is one of those that it was given, or the room is full.
#[derive(Drop, Debug)]
pub struct MemorySink {
    held: Vec<u8>,
    room: usize,
    piece: usize,
    calls: Calls,
}

impl Model for MemorySink {
    ghost use Rattle.std.specs.Prelude.{◌<◌, ◌≤◌, vec_len, vec_capacity};
    ghost use Rattle.isis_edge.specs.Memory.{MemoryOutput};

    ghost Value = { MemoryOutput };

    ghost view = { λ s. record {
      put = s.held.items;
      room = s.room;
      piece = s.piece;
      failing = s.calls.failing.items;
      calls = s.calls.made;
      faults = s.calls.faults;
    } };

    ghost invariant = { λ s. (vec_len s.held ≤ s.room) × (s.room ≤ vec_capacity s.held)
        × (0 < s.piece) };
}

impl MemorySink {
    /// An empty sink with room for `room` octets, which is taken now: no later call wants memory. `piece` is at
    /// least 1; `failing` are the numbers of the calls that are to fail, from 1.
    pub fn new(
        alloc: Global,
        room: usize,
        piece: usize,
        failing: Vec<u64>,
    ) -> Result<MemorySink, OutOfMemory>
        requires { 0 < piece }
        ensures { IfOk result (λ sink. sink
            ≡ record { put = []; room = room; piece = piece; failing = failing.items; calls = 0; faults = 0 }) }
    {
        let held = Vec::with_capacity(alloc, room)?;
        let calls = Calls {
            failing,
            made: 0,
            faults: 0,
        };
        Ok(MemorySink {
            held,
            room,
            piece,
            calls,
        })
    }

    /// The octets that it holds.
    pub fn octets(&self) -> &[u8]
        ensures { result.now ≡ self.now.put }
    {
        self.held.as_slice()
    }
}

impl Sink for MemorySink {
    ghost put = { λ s. s.put };

    ghost faults = { λ s. s.faults };

    fn write(&mut self, piece: &[u8]) -> Put
        requires { 0 < length piece.now }
        ensures octets { Writes self.old.put self.new.put result piece.now }
        ensures later { self.old.faults ≤ self.new.faults }
        ensures cause { OnFailed result (Rose self.old.faults self.new.faults) }
        ensures quiet { UnlessFailed result (self.new.faults ≡ self.old.faults) }
        ensures fails { (result ≡ Put.Failed)
            ↔ (IsToFail self.old.failing self.old.calls ⊎ (self.old.room ≤ length self.old.put)) }
        ensures count { IfPut result (λ count. count
            ≡ min (min self.old.piece (length piece.now)) (self.old.room - length self.old.put)) }
        ensures after { self.new ≡ after_write self.old piece.now result }
    {
        let is_to_fail = self.calls.next_fails();
        let left = self.room - self.held.len();
        if is_to_fail || left == 0 {
            self.calls.count_fault();
            return Put::Failed;
        }
        let count = self.piece.min(piece.len()).min(left);
        self.held.extend_from_slice(&piece[..count]).unwrap();
        Put::Some(count)
    }
}
