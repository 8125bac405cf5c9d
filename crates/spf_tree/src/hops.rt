//! Lists of systems: next hops.

ghost use Rattle.std.specs.Prelude.{◌≡◌, ◌++◌, ◌∷◌, [], ℕ, true, length, map, slice_get, IsTrue, IfOk, OnOk, OnErr, ◌↔◌};
ghost use Rattle.std.specs.Option.{option_map};
ghost use Rattle.std.specs.List.{All};
ghost use Rattle.spf_tree.specs.Nodes.{system_node, is_system};

use crate::node::system_of;
use isis_base::{OutOfMemory, SystemId};
use std::alloc::Global;
use std::marker::Model;

/// A list of systems. Contracts see it as the list of their numbers.
#[derive(Drop, Debug)]
pub struct Hops {
    items: Vec<SystemId>,
}

impl Model for Hops {
    ghost use Rattle.std.specs.Prelude.{ℕ, List, map};
    ghost use Rattle.spf_tree.specs.Nodes.{system_node};

    ghost Value = { List ℕ };

    ghost view = { λ h. map system_node h.items.items };
}

impl Hops {
    /// The empty list. It takes no memory.
    pub fn new(alloc: Global) -> Hops
        ensures { result ≡ [] }
    {
        Hops {
            items: Vec::new(alloc),
        }
    }

    /// The number of systems.
    pub fn len(&self) -> usize
        ensures { result ≡ length self.now }
    {
        self.items.len()
    }

    /// Whether there is no system.
    pub fn is_empty(&self) -> bool
        ensures { IsTrue result ↔ (self.now ≡ []) }
    {
        self.items.is_empty()
    }

    /// The system at a place, counted from 0; `None` exactly past the end.
    pub fn get(&self, place: usize) -> Option<SystemId>
        ensures { option_map system_node result ≡ slice_get self.now place }
    {
        self.items.get(place).copied()
    }

    /// An equal list.
    pub fn copy(&self) -> Result<Hops, OutOfMemory>
        ensures { IfOk result (λ copy. copy ≡ self.now) }
    {
        let items = self.items.clone()?;
        Ok(Hops { items })
    }

    /// Adds a system at the end. At `OutOfMemory` the list is as it was.
    pub fn push(&mut self, item: SystemId) -> Result<(), OutOfMemory>
        ensures ok { OnOk result (self.new ≡ self.old ++ system_node item ∷ []) }
        ensures err { OnErr result (self.new ≡ self.old) }
    {
        self.items.push(item)?;
        Ok(())
    }
}

/// The systems of numbers.
pub fn hops_of(alloc: Global, nodes: &[u64]) -> Result<Hops, OutOfMemory>
    requires { All (λ node. is_system node ≡ true) nodes.now }
    ensures { IfOk result (λ hops. hops ≡ nodes.now) }
{
    let mut hops = Hops::new(alloc);
    for place in 0..nodes.len() {
        match hops.push(system_of(nodes[place])) {
            Ok(()) => {}
            Err(error) => return Err(error),
        }
    }
    Ok(hops)
}
