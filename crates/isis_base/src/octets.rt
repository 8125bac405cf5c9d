//! A growing list of octets.
ghost use Rattle.std.specs.Prelude.{◌≡◌, ◌≤◌, [], ◌∷◌, ◌++◌, length, take, IsTrue, ◌↔◌, OnOk, OnErr, IfOk, slice_get};
ghost use Rattle.std.specs.Borrow.{sem};
ghost use Rattle.isis_base.specs.Lending.{LendsOctets};

use crate::memory::OutOfMemory;
use std::alloc::Global;
use std::marker::Model;

/// A growing list of octets. Contracts see it as the list of its octets.
#[derive(Drop, Debug)]
pub struct Octets {
    items: Vec<u8>,
}

impl Model for Octets {
    ghost use Rattle.std.specs.Prelude.{ℕ, List};

    ghost Value = { List ℕ };

    ghost view = { λ o. o.items.items };
}

impl Octets {
    /// The empty list. It takes no memory.
    pub fn new(alloc: Global) -> Octets
        ensures { result ≡ [] }
    {
        Octets {
            items: Vec::new(alloc),
        }
    }

    /// The number of octets.
    pub fn len(&self) -> usize
        ensures { result ≡ length self.now }
    {
        self.items.len()
    }

    /// Whether there is no octet.
    pub fn is_empty(&self) -> bool
        ensures { IsTrue result ↔ (self.now ≡ []) }
    {
        self.items.is_empty()
    }

    /// The octet at a place, counted from 0; `None` exactly past the end.
    pub fn get(&self, place: usize) -> Option<u8>
        ensures { result ≡ slice_get self.now place }
    {
        self.items.get(place).copied()
    }

    /// An equal list.
    pub fn copy(&self) -> Result<Octets, OutOfMemory>
        ensures { IfOk result (λ copy. copy ≡ self.now) }
    {
        let items = self.items.clone()?;
        Ok(Octets { items })
    }

    /// Adds an octet at the end. At `OutOfMemory` the list is as it was.
    pub fn push(&mut self, item: u8) -> Result<(), OutOfMemory>
        ensures ok { OnOk result (self.new ≡ self.old ++ item ∷ []) }
        ensures err { OnErr result (self.new ≡ self.old) }
    {
        self.items.push(item)?;
        Ok(())
    }

    /// Adds octets at the end. At `OutOfMemory` the list is as it was.
    pub fn extend(&mut self, piece: &[u8]) -> Result<(), OutOfMemory>
        ensures ok { OnOk result (self.new ≡ self.old ++ piece.now) }
        ensures err { OnErr result (self.new ≡ self.old) }
    {
        self.items.extend_from_slice(piece)?;
        Ok(())
    }

    /// Keeps the first `len` octets.
    pub fn truncate(&mut self, len: usize)
        requires { len ≤ length self.old }
        ensures { self.new ≡ take len self.old }
    {
        self.items.truncate(len);
    }

    /// The octets, lent.
    pub fn as_slice(&self) -> &[u8]
        ensures { result.now ≡ self.now }
    {
        self.items.as_slice()
    }

    /// The octets, lent to be written; their number stays.
    pub fn as_mut_slice(&mut self) -> &mut [u8]
        ensures* writes_back { sem 𝓛 (LendsOctets self.entry result) }
        ensures value { result.now ≡ self.old }
    {
        self.items.as_mut_slice()
    }
}
