//! Links in the order in which lines give them, and their look-up.
ghost use Rattle.std.specs.Prelude.{◌≡◌, [], ◌∷◌, ◌++◌, length, OnOk, OnErr};
ghost use Rattle.lab_keys.specs.KeysNet.{ordered as ordered_pair};
ghost use Rattle.lab_script.specs.Links.{has_link};

use std::alloc::{AllocError, Global};
use std::collections::HashMap;
use std::marker::Model;

/// The links so far, each by the numbers of its ends, the lesser first, and their look-up.
#[derive(Drop)]
pub(crate) struct Links {
    list: Vec<(usize, usize)>,
    index: HashMap<(usize, usize), ()>,
}

impl Model for Links {
    ghost use Rattle.std.specs.Prelude.{List, ℕ};

    ghost Value = { List (ℕ × ℕ) };

    ghost view = { λ links. links.list.items };

    ghost use Rattle.lab_script.specs.LinkIndex.{IsLinkIndex};

    ghost invariant = { IsLinkIndex };
}

/// Two routers, the lesser first.
fn ordered(a: usize, b: usize) -> (usize, usize)
    ensures { result ≡ ordered_pair a b }
{
    if b < a { (b, a) } else { (a, b) }
}

impl Links {
    /// No links.
    pub(crate) fn new(alloc: Global) -> Links
        ensures { result ≡ [] }
    {
        Links {
            list: Vec::new(alloc),
            index: HashMap::new(alloc),
        }
    }

    /// Whether some link joins two routers.
    pub(crate) fn join(&self, a: usize, b: usize) -> bool
        ensures { result ≡ has_link self.now (ordered_pair a b) }
    {
        self.index.get(&ordered(a, b)).is_some()
    }

    /// How many there are.
    pub(crate) fn count(&self) -> usize
        ensures { result ≡ length self.now }
    {
        self.list.len()
    }

    /// Adds a link between two routers.
    pub(crate) fn add(&mut self, a: usize, b: usize) -> Result<(), AllocError>
        ensures ok { OnOk result (self.new ≡ self.old ++ ordered_pair a b ∷ []) }
        ensures err { OnErr result (self.new ≡ self.old) }
    {
        let ends = ordered(a, b);
        self.list.reserve(1)?;
        self.index.insert(ends, ())?;
        self.list.push_reserved(ends);
        Ok(())
    }

    /// The links, in order.
    pub(crate) fn list(&self) -> &[(usize, usize)]
        ensures { result.now ≡ self.now }
    {
        self.list.as_slice()
    }
}
