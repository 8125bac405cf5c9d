//! Names in the order in which lines give them, and their look-up.
ghost use Rattle.std.specs.Prelude.{◌≡◌, ◌<◌, None, [], ◌∷◌, ◌++◌, length, map, IfSome, OnOk, OnErr};
ghost use Rattle.lab_script.specs.Names.{number_of_name};
ghost use Rattle.line_cuts.specs.Words.{texts};

use std::alloc::{AllocError, Global};
use std::collections::HashMap;
use std::marker::Model;

/// Names, numbered from 0 in the order in which they came, and their look-up.
#[derive(Drop)]
pub(crate) struct Names<'a> {
    list: Vec<&'a str>,
    index: HashMap<&'a [u8], usize>,
}

impl<'a> Model for Names<'a> {
    ghost use Rattle.std.specs.Prelude.{List, ℕ};

    ghost Value = { List (List ℕ) };

    ghost use Rattle.lab_script.specs.Index.{names_of, IsIndexed};

    ghost view = { names_of };

    ghost invariant = { IsIndexed };
}

impl<'a> Names<'a> {
    /// No names.
    pub(crate) fn new(alloc: Global) -> Names<'a>
        ensures { result ≡ [] }
    {
        Names {
            list: Vec::new(alloc),
            index: HashMap::new(alloc),
        }
    }

    /// The number of a name.
    pub(crate) fn find(&self, name: &str) -> Option<usize>
        ensures value { result ≡ number_of_name self.now name.now }
        ensures there { IfSome result (λ number. number < length self.now) }
    {
        self.index.get(name.as_bytes()).copied()
    }

    /// How many there are.
    pub(crate) fn count(&self) -> usize
        ensures { result ≡ length self.now }
    {
        self.list.len()
    }

    /// Gives the next number to a name.
    pub(crate) fn add(&mut self, name: &'a str) -> Result<(), AllocError>
        requires { number_of_name self.old name.now ≡ None }
        ensures ok { OnOk result (self.new ≡ self.old ++ name.now ∷ []) }
        ensures err { OnErr result (self.new ≡ self.old) }
    {
        self.list.reserve(1)?;
        self.index.insert(name.as_bytes(), self.list.len())?;
        self.list.push_reserved(name);
        Ok(())
    }

    /// The names, in the order of their numbers.
    pub(crate) fn list(&self) -> &[&'a str]
        ensures { texts result.now ≡ self.now }
    {
        self.list.as_slice()
    }
}
