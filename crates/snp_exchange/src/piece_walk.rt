//! A piece of a CSNP set, lent: its range, and a walk over what is said in it.
use flag_sync::Keys;
use isis_base::{LspEntry, LspId};
use std::marker::Model;

/// A CSNP of a set, whose entries lie in the database still: the first and the last LSP ID of its
/// range, and what is said in it (ISO 10589 9.10).
#[derive(Drop)]
pub struct PieceWalk<'a> {
    pub start: LspId,
    pub end: LspId,
    pub entries: EntryWalk<'a>,
}

/// The entries of a piece, in order. Contracts see those that are left.
#[derive(Drop)]
pub struct EntryWalk<'a> {
    pub(crate) keys: Keys<'a>,
    pub(crate) count: usize,
}

impl<'a> Model for EntryWalk<'a> {
    ghost use Rattle.std.specs.Prelude.{List, take};
    ghost use Rattle.isis_base.specs.declared.entry.LspEntry.{LspEntry};

    ghost Value = { List LspEntry };

    ghost view = { λ w. take w.count w.keys };
}

impl<'a> Iterator for EntryWalk<'a> {
    ghost use Rattle.std.specs.Iterator.{YieldsFirst, item_count};

    type Item = LspEntry;

    ghost next_gives = { YieldsFirst (λ rest. rest) };

    ghost remaining = { item_count (λ rest. rest) };

    fn next(&mut self) -> Option<LspEntry> {
        if self.count == 0 {
            return None;
        }
        self.count -= 1;
        self.keys.next()
    }
}
