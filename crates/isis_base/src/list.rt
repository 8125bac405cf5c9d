//! A growing list.
ghost use Rattle.std.specs.Prelude.{◌≡◌, [], ◌∷◌, ◌++◌, length, slice_get, IsTrue, ◌↔◌, OnOk, OnErr, IfOk};
ghost use Rattle.std.specs.Option.{option_copied};

use crate::memory::OutOfMemory;
use std::alloc::Global;
use std::marker::Model;

/// A growing list. Contracts see it as the list of its items.
#[derive(Drop, Debug)]
pub struct List<T> {
    items: Vec<T>,
}

impl<T> Model for List<T> {
    ghost use Rattle.std.specs.Prelude.{List};

    ghost Value = { List T };

    ghost view = { λ l. l.items.items };
}

impl<T> List<T> {
    /// The empty list. It takes no memory.
    pub fn new(alloc: Global) -> List<T>
        ensures { result ≡ [] }
    {
        List {
            items: Vec::new(alloc),
        }
    }

    /// The empty list, with the memory for so many items.
    pub fn with_room(alloc: Global, count: usize) -> Result<List<T>, OutOfMemory>
        ensures { IfOk result (λ list. list ≡ []) }
    {
        let items = Vec::with_capacity(alloc, count)?;
        Ok(List { items })
    }

    /// The list of these items.
    pub fn of(items: Vec<T>) -> List<T>
        ensures { result ≡ items.items }
    {
        List { items }
    }

    /// The number of items.
    pub fn len(&self) -> usize
        ensures { result ≡ length self.now }
    {
        self.items.len()
    }

    /// Whether there is no item.
    pub fn is_empty(&self) -> bool
        ensures { IsTrue result ↔ (self.now ≡ []) }
    {
        self.items.is_empty()
    }

    /// The item at a place, counted from 0; `None` exactly past the end.
    pub fn get(&self, place: usize) -> Option<&T>
        ensures { option_copied result ≡ slice_get self.now place }
    {
        self.items.get(place)
    }

    /// The items, lent.
    pub fn as_slice(&self) -> &[T]
        ensures { result.now ≡ self.now }
    {
        self.items.as_slice()
    }

    /// The items, given away.
    pub fn into_items(self) -> Vec<T>
        ensures { result.items ≡ self }
    {
        self.items
    }

    /// What the list takes its memory from.
    pub fn allocator(&self) -> Global {
        *self.items.allocator()
    }
}

impl<T: Drop> List<T> {
    /// Adds an item at the end. At `OutOfMemory` the list is as it was.
    pub fn push(&mut self, item: T) -> Result<(), OutOfMemory>
        ensures ok { OnOk result (self.new ≡ self.old ++ item ∷ []) }
        ensures err { OnErr result (self.new ≡ self.old) }
    {
        self.items.push(item)?;
        Ok(())
    }
}

impl<T: Copy> List<T> {
    /// An equal list.
    pub fn copy(&self) -> Result<List<T>, OutOfMemory>
        ensures { IfOk result (λ copy. copy ≡ self.now) }
    {
        let items = Vec::from_slice(self.allocator(), &self.items)?;
        Ok(List { items })
    }

    /// An equal list with an item more at its end.
    pub fn with(&self, item: T) -> Result<List<T>, OutOfMemory>
        ensures { IfOk result (λ list. list ≡ self.now ++ item ∷ []) }
    {
        let mut items = Vec::from_slice(self.allocator(), &self.items)?;
        items.push(item)?;
        Ok(List { items })
    }
}
