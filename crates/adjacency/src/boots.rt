//! The greatest boot numbers that were heard on a circuit, by system (own).
ghost use Rattle.std.specs.Prelude.{◌≡◌, ℕ, List, [], IfOk, OnErr, vec_capacity};
ghost use Rattle.std.specs.Result.{is_err};
ghost use Rattle.model_router.specs.Maps.{find, put};
ghost use Rattle.model_router.specs.Numbers.{system_number};
ghost use Rattle.model_router.specs.Sorted.{RisesFrom};
ghost use Rattle.adjacency.specs.Remembered.{AreBoots, IsAtPair, is_full, greater};

use designated_is::system_to_number;
use isis_base::{OutOfMemory, SystemId};
use ordered::place_of;
use std::alloc::Global;
use std::marker::Model;

/// The most systems that are remembered on a circuit (own).
const MOST: usize = 256;

/// The system isn't remembered, and 256 are.
#[derive(Clone, Copy, Debug, PartialEq, Eq)]
pub struct BootsFull;

/// The greatest boot number heard of each system on a circuit (own). Contracts see it as the
/// router's model has it: a map by system.
#[derive(Drop, Debug)]
pub struct Boots {
    list: Vec<(u64, u32)>,
}

impl Model for Boots {
    ghost use Rattle.std.specs.Prelude.{ℕ, List, vec_capacity};

    ghost Value = { List (ℕ × ℕ) };

    ghost use Rattle.adjacency.specs.Remembered.{AreBoots};

    ghost view = { λ b. b.list.items };

    ghost invariant = { λ b. AreBoots b.list.items (vec_capacity b.list) };
}

impl Boots {
    /// Nothing is remembered, and there is room for 256 systems.
    pub fn new(alloc: Global) -> Result<Boots, OutOfMemory>
        ensures { IfOk result (λ boots. boots ≡ []) }
    {
        let list = Vec::with_capacity(alloc, MOST)?;
        Ok(Boots { list })
    }

    /// The boot number that is remembered of a system, where one is.
    pub fn heard(&self, system: SystemId) -> Option<u32>
        ensures { result ≡ find self.now (system_number system) }
    {
        heard_in(&self.list, system)
    }

    /// All that is remembered, by system.
    pub fn list(&self) -> &[(u64, u32)]
        ensures { result.now ≡ self.now }
    {
        self.list.as_slice()
    }

    /// Keeps the greater of the boot number and the one that is remembered of the system. `BootsFull`
    /// exactly where the system isn't remembered and 256 are; then all is as before. It takes no memory.
    pub fn hear(&mut self, system: SystemId, boot: u32) -> Result<(), BootsFull>
        ensures full { is_err result ≡ is_full self.old (system_number system) }
        ensures kept { IfOk result (λ _. self.new ≡ put self.old (system_number system)
            (greater boot (find self.old (system_number system)))) }
        ensures unchanged { OnErr result (self.new ≡ self.old) }
    {
        hear_in(&mut self.list, system, boot)
    }

    /// Whether a system isn't remembered, and 256 are.
    pub fn is_full(&self, system: SystemId) -> bool
        ensures { result ≡ is_full self.now (system_number system) }
    {
        self.list.len() >= MOST && self.heard(system).is_none()
    }

    /// Equal boots, with the room for 256 systems.
    pub fn copy(&self) -> Result<Boots, OutOfMemory>
        ensures { IfOk result (λ copy. copy ≡ self.now) }
    {
        let alloc = *self.list.allocator();
        let mut list = Vec::with_capacity(alloc, MOST)?;
        list.extend_from_slice(&self.list)?;
        Ok(Boots { list })
    }
}

/// What is remembered of a system in a list.
fn heard_in(list: &[(u64, u32)], system: SystemId) -> Option<u32>
    requires { RisesFrom 0 list.now }
    ensures { result ≡ find list.now (system_number system) }
{
    match place_in(list, system) {
        Ok(at) => Some(list[at].1),
        Err(_) => None,
    }
}

/// Where a system is in a list, or where it would go.
fn place_in(list: &[(u64, u32)], system: SystemId) -> Result<usize, usize>
    requires { RisesFrom 0 list.now }
    ensures { IsAtPair list.now (system_number system) result }
{
    place_of(list, system_to_number(system))
}

/// Keeps the greater boot number in a list.
fn hear_in(list: &mut Vec<(u64, u32)>, system: SystemId, boot: u32) -> Result<(), BootsFull>
    requires { AreBoots list.old.items (vec_capacity list.old) }
    ensures boots { AreBoots list.new.items (vec_capacity list.new) }
    ensures full { is_err result ≡ is_full list.old.items (system_number system) }
    ensures kept { IfOk result (λ _. list.new.items ≡ put list.old.items (system_number system)
        (greater boot (find list.old.items (system_number system)))) }
    ensures unchanged { OnErr result (list.new.items ≡ list.old.items) }
{
    let number = system_to_number(system);
    match place_in(list, system) {
        Ok(at) => {
            let (_, old) = list[at];
            list[at] = (number, greater(boot, old));
            Ok(())
        }
        Err(at) => {
            if list.len() >= MOST {
                return Err(BootsFull);
            }
            list.insert(at, (number, boot)).unwrap();
            Ok(())
        }
    }
}

/// The greater boot number.
fn greater(boot: u32, old: u32) -> u32
    ensures { result ≡ greater boot (Some old) }
{
    if boot < old { old } else { boot }
}
