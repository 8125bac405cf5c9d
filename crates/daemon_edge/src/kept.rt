//! Datagrams that are kept, one behind another, in room that was taken before.
ghost use Rattle.std.specs.Prelude.{◌≡◌, ◌+◌, ◌≤◌, [], ◌∷◌, ◌++◌, length, vec_len, vec_capacity, slice_get, IfOk, if◌then◌else◌, true, false};
ghost use Rattle.std.specs.Option.{option_map};
ghost use Rattle.daemon_edge.specs.Kept.{has_room};

use isis_base::OutOfMemory;
use std::alloc::Global;
use std::marker::Model;

/// Datagrams within a room: so many at most, of together so many octets at most.
#[derive(Drop, Debug)]
pub struct Kept {
    octets: Vec<u8>,
    lengths: Vec<usize>,
    room: usize,
}

impl Model for Kept {
    ghost use Rattle.std.specs.Prelude.{◌≡◌, ◌≤◌, vec_capacity, length};
    ghost use Rattle.daemon_edge.specs.Kept.{KeptList, parts, sum_of};

    ghost Value = { KeptList };

    ghost view = { λ k. record {
      datagrams = parts k.lengths.items k.octets.items;
      room = k.room;
    } };

    ghost invariant = { λ k. (sum_of k.lengths.items ≡ length k.octets.items)
        × (length k.octets.items ≤ k.room) × (length k.lengths.items ≤ k.room)
        × (k.room ≤ vec_capacity k.octets) × (k.room ≤ vec_capacity k.lengths) };
}

impl Kept {
    /// No datagram, and no room for any. It takes no memory.
    pub fn none(alloc: Global) -> Kept
        ensures { result ≡ record { datagrams = []; room = 0 } }
    {
        Kept {
            octets: Vec::new(alloc),
            lengths: Vec::new(alloc),
            room: 0,
        }
    }

    /// No datagram, and room for so many, of together so many octets.
    pub fn with_room(alloc: Global, room: usize) -> Result<Kept, OutOfMemory>
        ensures { IfOk result (λ kept. kept ≡ record { datagrams = []; room = room }) }
    {
        let octets = Vec::with_capacity(alloc, room)?;
        let lengths = Vec::with_capacity(alloc, room)?;
        Ok(Kept {
            octets,
            lengths,
            room,
        })
    }

    /// Keeps a datagram more, if there is room for it; says whether there was. It takes no memory.
    pub fn keep(&mut self, datagram: &[u8]) -> bool
        ensures fits { result ≡ has_room self.old datagram.now }
        ensures kept { self.new ≡ (if result then record self.old {
          datagrams = self.old.datagrams ++ datagram.now ∷ [];
        } else self.old) }
    {
        let has_place = self.lengths.len() < self.room;
        let left = self.room - self.octets.len();
        if !has_place || left < datagram.len() {
            return false;
        }
        self.octets.extend_from_slice(datagram).unwrap();
        self.lengths.push(datagram.len()).unwrap();
        true
    }

    /// The datagram at a place, counted from 0; `None` exactly past the end.
    pub fn get(&self, place: usize) -> Option<&[u8]>
        ensures { option_map (λ datagram. datagram.now) result
            ≡ slice_get self.now.datagrams place }
    {
        let mut rest = self.octets.as_slice();
        let mut left = self.lengths.as_slice();
        let mut place = place;
        while let [length, more @ ..] = left {
            if place == 0 {
                return Some(&rest[..*length]);
            }
            rest = &rest[*length..];
            left = more;
            place -= 1;
        }
        None
    }

    /// The number of datagrams.
    pub fn len(&self) -> usize
        ensures { result ≡ length self.now.datagrams }
    {
        self.lengths.len()
    }
}
