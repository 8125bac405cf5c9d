//! Lists of groups of routers.
ghost use Rattle.std.specs.Prelude.{◌≡◌, ◌==◌, [], ◌∷◌, ◌++◌, ◌<◌, length, slice_get, OnOk, OnErr, IfOk};
ghost use Rattle.std.specs.Option.{option_map};
ghost use Rattle.lab_facts.specs.Tags.{with_router};

use isis_base::OutOfMemory;
use std::alloc::Global;
use std::marker::Model;

/// One group of routers.
#[derive(Drop, Debug)]
struct Group {
    routers: Vec<usize>,
}

impl Model for Group {
    ghost use Rattle.std.specs.Prelude.{List, ℕ};

    ghost Value = { List ℕ };

    ghost view = { λ g. g.routers.items };
}

impl Group {
    /// Adds a router at the end.
    fn push(&mut self, router: usize) -> Result<(), OutOfMemory>
        ensures { OnOk result (self.new ≡ self.old ++ router ∷ []) }
    {
        self.routers.push(router)?;
        Ok(())
    }

    /// An equal group.
    fn copy(&self) -> Result<Group, OutOfMemory>
        ensures { IfOk result (λ copy. copy ≡ self.now) }
    {
        let routers = self.routers.clone()?;
        Ok(Group { routers })
    }
}

/// Groups of routers, in order. Contracts see them as lists of routers.
#[derive(Drop, Debug)]
pub struct Groups {
    items: Vec<Group>,
}

impl Model for Groups {
    ghost use Rattle.std.specs.Prelude.{List, ℕ};

    ghost Value = { List (List ℕ) };

    ghost view = { λ g. g.items.items };
}

impl Groups {
    /// No group. It takes no memory.
    pub fn new(alloc: Global) -> Groups
        ensures { result ≡ [] }
    {
        Groups {
            items: Vec::new(alloc),
        }
    }

    /// The number of groups.
    pub fn len(&self) -> usize
        ensures { result ≡ length self.now }
    {
        self.items.len()
    }

    /// Whether there is none.
    pub fn is_empty(&self) -> bool
        ensures { result ≡ (length self.now == 0) }
    {
        self.items.is_empty()
    }

    /// The group at a place, counted from 0; `None` exactly past the end.
    pub fn get(&self, place: usize) -> Option<&[usize]>
        ensures { option_map (λ routers. routers.now) result ≡ slice_get self.now place }
    {
        match self.items.get(place) {
            Some(group) => Some(group.routers.as_slice()),
            None => None,
        }
    }

    /// Adds a group at the end. At `OutOfMemory` the list is as it was.
    pub fn push(&mut self, item: Vec<usize>) -> Result<(), OutOfMemory>
        ensures ok { OnOk result (self.new ≡ self.old ++ item.items ∷ []) }
        ensures err { OnErr result (self.new ≡ self.old) }
    {
        self.push_group(Group { routers: item })
    }

    /// Adds a group at the end.
    fn push_group(&mut self, group: Group) -> Result<(), OutOfMemory>
        ensures ok { OnOk result (self.new ≡ self.old ++ group ∷ []) }
        ensures err { OnErr result (self.new ≡ self.old) }
    {
        self.items.push(group)?;
        Ok(())
    }

    /// Adds a router at the end of the group at a place.
    pub(crate) fn add(&mut self, place: usize, router: usize) -> Result<(), OutOfMemory>
        requires { place < length self.old }
        ensures { OnOk result (self.new ≡ with_router self.old place router) }
    {
        self.items[place].push(router)
    }

    /// Equal groups.
    pub fn copy(&self) -> Result<Groups, OutOfMemory>
        ensures { IfOk result (λ copy. copy ≡ self.now) }
    {
        let alloc = *self.items.allocator();
        let mut copies = Groups::new(alloc);
        for place in 0..self.items.len() {
            let group = match self.items[place].copy() {
                Ok(group) => group,
                Err(error) => return Err(error),
            };
            match copies.push_group(group) {
                Ok(()) => {}
                Err(error) => return Err(error),
            }
        }
        Ok(copies)
    }
}
