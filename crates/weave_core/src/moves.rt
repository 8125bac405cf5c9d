//! Letters as a move sends them, moves, tracks, what was sent, and turns.
ghost use Rattle.std.specs.Prelude.{◌≡◌, ◌∷◌, [], ◌++◌, length, OnOk, OnErr};

use isis_base::OutOfMemory;
use std::alloc::Global;
use std::marker::Model;

/// Letters by their numbers, in the order in which a move sends them. Contracts see the list of the
/// numbers.
#[derive(Drop, Debug)]
pub struct Letters {
    items: Vec<usize>,
}

impl Model for Letters {
    ghost use Rattle.std.specs.Prelude.{ℕ, List};

    ghost Value = { List ℕ };

    ghost view = { λ l. l.items.items };
}

impl Letters {
    /// No letter. It takes no memory.
    pub fn new(alloc: Global) -> Letters
        ensures { result ≡ [] }
    {
        Letters {
            items: Vec::new(alloc),
        }
    }

    /// A letter more, at the end. At `OutOfMemory` nothing changed.
    pub fn push(&mut self, letter: usize) -> Result<(), OutOfMemory>
        ensures ok { OnOk result (self.new ≡ self.old ++ letter ∷ []) }
        ensures err { OnErr result (self.new ≡ self.old) }
    {
        self.items.push(letter)?;
        Ok(())
    }

    /// The numbers, lent.
    pub fn as_slice(&self) -> &[usize]
        ensures { result.now ≡ self.now }
    {
        self.items.as_slice()
    }
}

/// A move: the letter that it needs, if any, and those that it sends, in order. Parties and letters
/// are numbered from 0.
#[derive(Drop, Debug)]
pub struct Move {
    pub needs: Option<usize>,
    pub sends: Letters,
}

/// A party's moves, in order, and how many of them were made. Contracts see the list of those that
/// are left.
#[derive(Drop, Debug)]
pub struct Track {
    pub(crate) moves: Vec<Move>,
    pub(crate) made: usize,
}

impl Model for Track {
    ghost use Rattle.std.specs.Prelude.{List, drop};
    ghost use Rattle.weave_core.specs.declared.moves.Move.{Move as Step};

    ghost Value = { List Step };

    ghost view = { λ t. drop t.made t.moves.items };
}

impl Track {
    /// A party's moves, of which none was made.
    pub fn new(moves: Vec<Move>) -> Track
        ensures { result ≡ moves.items }
    {
        Track { moves, made: 0 }
    }

    /// How many moves are left.
    pub fn left(&self) -> usize
        ensures { result ≡ length self.now }
    {
        self.moves.len().saturating_sub(self.made)
    }
}

/// A letter that was sent, and by whom.
#[derive(Clone, Copy, Debug)]
pub struct Sent {
    pub letter: usize,
    pub sender: usize,
}

/// A party makes its next move. Where that needs a letter, `taken` says with which of those sent,
/// counted from 1.
#[derive(Clone, Copy, Debug)]
pub struct Turn {
    pub party: usize,
    pub taken: Option<usize>,
}
