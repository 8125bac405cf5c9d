//! The number of a letter, by its link and octets.
ghost use Rattle.std.specs.Prelude.{◌≡◌, ◌∷◌, [], ◌++◌, length, OnOk, OnErr, IfSome};
ghost use Rattle.weave_core.specs.Codes.{wire_place, code_of, with_wire};

use isis_base::OutOfMemory;
use std::alloc::Global;
use std::collections::HashMap;
use std::marker::Model;

/// Octets on links, each of which has a letter: the first the number 0, and so on. Contracts see
/// their list.
#[derive(Drop)]
pub struct LetterBook<'a> {
    list: Vec<(usize, &'a [u8])>,
    index: HashMap<(usize, &'a [u8]), usize>,
}

impl<'a> Model for LetterBook<'a> {
    ghost use Rattle.std.specs.Prelude.{List, ℕ};

    ghost Value = { List (ℕ × List ℕ) };

    ghost use Rattle.weave_core.specs.Index.{wires_of, IsIndexed};

    ghost view = { wires_of };

    ghost invariant = { IsIndexed };
}

impl<'a> LetterBook<'a> {
    /// No letter. It takes no memory.
    pub fn new(alloc: Global) -> LetterBook<'a>
        ensures { result ≡ [] }
    {
        LetterBook {
            list: Vec::new(alloc),
            index: HashMap::new(alloc),
        }
    }

    /// How many letters there are.
    pub fn len(&self) -> usize
        ensures { result ≡ length self.now }
    {
        self.list.len()
    }

    /// The number of the letter of octets on a link; where they have none, how many letters there
    /// are.
    pub fn code(&self, link: usize, octets: &[u8]) -> usize
        ensures { result ≡ code_of self.now link octets.now }
    {
        match self.index.get(&(link, octets)) {
            Some(letter) => *letter,
            None => self.list.len(),
        }
    }

    /// Gives octets on a link a letter, where they have none. At `OutOfMemory` nothing changed.
    pub fn add(&mut self, link: usize, octets: &'a [u8]) -> Result<(), OutOfMemory>
        ensures ok { OnOk result (self.new ≡ with_wire self.old link octets.now) }
        ensures err { OnErr result (self.new ≡ self.old) }
    {
        if self.index.get(&(link, octets)).is_some() {
            return Ok(());
        }
        self.list.reserve(1)?;
        self.index.insert((link, octets), self.list.len())?;
        self.list.push_reserved((link, octets));
        Ok(())
    }
}
