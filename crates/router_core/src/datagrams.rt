//! Datagrams that are sent.
ghost use Rattle.std.specs.Prelude.{◌≡◌, ◌==◌, [], ◌∷◌, ◌++◌, length, slice_get, OnOk, OnErr, IfOk};
ghost use Rattle.std.specs.Option.{option_map};

use isis_base::{Octets, OutOfMemory};
use std::alloc::Global;
use std::marker::Model;

/// Datagrams in the order in which they are sent. Contracts see them as lists of octets.
#[derive(Drop, Debug)]
pub struct Datagrams {
    items: Vec<Octets>,
}

impl Model for Datagrams {
    ghost use Rattle.std.specs.Prelude.{List, ℕ};

    ghost Value = { List (List ℕ) };

    ghost view = { λ d. d.items.items };
}

impl Datagrams {
    /// No datagram. It takes no memory.
    pub fn new(alloc: Global) -> Datagrams
        ensures { result ≡ [] }
    {
        Datagrams {
            items: Vec::new(alloc),
        }
    }

    /// The number of datagrams.
    pub fn len(&self) -> usize
        ensures { result ≡ length self.now }
    {
        self.items.len()
    }

    /// Whether there is none.
    pub fn is_empty(&self) -> bool
        ensures { result ≡ (length self.now == 0) }
    {
        self.items.is_empty()
    }

    /// The datagram at a place, counted from 0; `None` exactly past the end.
    pub fn get(&self, place: usize) -> Option<&[u8]>
        ensures { option_map (λ octets. octets.now) result ≡ slice_get self.now place }
    {
        match self.items.get(place) {
            Some(octets) => Some(octets.as_slice()),
            None => None,
        }
    }

    /// Adds a datagram at the end. At `OutOfMemory` the list is as it was.
    pub fn push(&mut self, item: Octets) -> Result<(), OutOfMemory>
        ensures ok { OnOk result (self.new ≡ self.old ++ item ∷ []) }
        ensures err { OnErr result (self.new ≡ self.old) }
    {
        self.items.push(item)?;
        Ok(())
    }

    /// The datagrams, in order.
    pub fn into_items(self) -> Vec<Octets>
        ensures { result.items ≡ self }
    {
        self.items
    }

    /// Equal datagrams.
    pub fn copy(&self) -> Result<Datagrams, OutOfMemory>
        ensures { IfOk result (λ copy. copy ≡ self.now) }
    {
        let alloc = *self.items.allocator();
        let mut copies = Datagrams::new(alloc);
        for place in 0..self.items.len() {
            let copy = match self.items[place].copy() {
                Ok(copy) => copy,
                Err(error) => return Err(error),
            };
            match copies.push(copy) {
                Ok(()) => {}
                Err(error) => return Err(error),
            }
        }
        Ok(copies)
    }
}
