//! What sequence number PDUs say of a book: its keys, and the entries that are owed on a circuit.
ghost use Rattle.std.specs.Prelude.{◌≡◌, ◌-◌, ◌<◌, Some, None, [], false};
ghost use Rattle.model_router.specs.Cells.{Cell};
ghost use Rattle.model_router.specs.Good.{IsGoodBook};
ghost use Rattle.model_router.specs.SnpLists.{held_keys, owed};
ghost use Rattle.flag_sync.specs.Heard.{entries_of};
ghost use Rattle.flag_sync.specs.Said.{said, key_said, is_numbered, said_keys, said_owed, SaidRise};
ghost use Rattle.flag_sync.specs.BookStates.{book_of, IsCircuit};

use crate::bits::has_bit;
use crate::book::Book;
use crate::flag_row::FlagRow;
use isis_base::{Key, LspEntry, LspId};
use lsp_store::{Entry, Pairs};
use std::marker::Model;

/// What is said of the keys of a book, in order. Contracts see what is left.
#[derive(Drop)]
pub struct Keys<'a> {
    entries: Pairs<'a, Entry>,
}

impl<'a> Model for Keys<'a> {
    ghost use Rattle.std.specs.Prelude.{List};
    ghost use Rattle.isis_base.specs.declared.entry.LspEntry.{LspEntry};
    ghost use Rattle.flag_sync.specs.Said.{said_keys};

    ghost Value = { List LspEntry };

    ghost view = { λ k. said_keys k.entries };
}

impl<'a> Keys<'a> {
    /// The same walk once more, from where this one is.
    pub fn again(&self) -> Keys<'a>
        ensures { result ≡ self.now }
    {
        Keys {
            entries: self.entries.again(),
        }
    }
}

impl<'a> Iterator for Keys<'a> {
    ghost use Rattle.std.specs.Iterator.{YieldsFirst, item_count};

    type Item = LspEntry;

    ghost next_gives = { YieldsFirst (λ rest. rest) };

    ghost remaining = { item_count (λ rest. rest) };

    fn next(&mut self) -> Option<LspEntry> {
        while let Some((id, entry)) = self.entries.next() {
            if is_numbered(entry.key) {
                return Some(said_of(id, entry));
            }
        }
        None
    }
}

/// What is said of the entries that are owed on a circuit, in order. Contracts see what is left.
#[derive(Drop)]
pub struct SaidOwed<'a> {
    entries: Pairs<'a, Entry>,
    rows: Pairs<'a, FlagRow>,
    place: u8,
    some: bool,
    ghost fits: { place < 64 },
    ghost none: { some ≡ false → said_owed place entries rows ≡ [] },
}

impl<'a> Model for SaidOwed<'a> {
    ghost use Rattle.std.specs.Prelude.{List};
    ghost use Rattle.isis_base.specs.declared.entry.LspEntry.{LspEntry};
    ghost use Rattle.flag_sync.specs.Said.{said_owed};

    ghost Value = { List LspEntry };

    ghost view = { λ o. said_owed o.place o.entries o.rows };
}

impl<'a> Iterator for SaidOwed<'a> {
    ghost use Rattle.std.specs.Iterator.{YieldsFirst, item_count};

    type Item = LspEntry;

    ghost next_gives = { YieldsFirst (λ rest. rest) };

    ghost remaining = { item_count (λ rest. rest) };

    fn next(&mut self) -> Option<LspEntry> {
        if !self.some {
            return None;
        }
        while let Some((id, entry)) = self.entries.next() {
            if let Some((_, row)) = self.rows.next() {
                if has_bit(row.ssn, self.place) {
                    return Some(said_of(id, entry));
                }
            }
        }
        None
    }
}

impl Book {
    /// What a CSNP set says of the book (ISO 10589 7.3.15.3): its keys in order, purges among them.
    pub fn keys(&self) -> Keys<'_>
        ensures said { result ≡ said_keys self.now.store.entries }
        ensures held { IsGoodBook (book_of self.now)
            → entries_of result ≡ held_keys (book_of self.now) }
        ensures rise { SaidRise 0 result }
    {
        Keys {
            entries: self.store.pages().pairs(),
        }
    }

    /// What PSNPs on the circuit say (ISO 10589 7.3.15.4): the entries whose SSN stands there, in
    /// order.
    pub fn said_owed(&self, circuit: u8) -> SaidOwed<'_>
        requires { IsCircuit circuit self.now.circuits }
        ensures said { result ≡ said_owed (circuit - 1) self.now.store.entries self.now.rows }
        ensures owed { IsGoodBook (book_of self.now)
            → entries_of result ≡ owed (circuit - 1) (book_of self.now) }
    {
        let place = self.place(circuit);
        let entries = self.store.pages().pairs();
        let rows = self.flags.pairs();
        let some = self.flags.may_answer(place);
        SaidOwed {
            entries,
            rows,
            place,
            some,
        }
    }
}

/// What is said of an entry: of a purge with lifetime and checksum 0, of an empty entry with
/// number 0 too.
fn said_of(id: LspId, entry: &Entry) -> LspEntry
    ensures { result ≡ said id entry.now }
{
    match entry.key {
        Some(key) => said_key(id, entry, key),
        None => nothing(id),
    }
}

/// What is said of a key.
fn said_key(id: LspId, entry: &Entry, key: Key) -> LspEntry
    ensures { result ≡ key_said id entry.now (Some key) }
{
    if key.number == 0 {
        return nothing(id);
    }
    let number = key.number;
    let (lifetime, checksum) = if key.purged {
        (0, 0)
    } else {
        (entry.left, entry.checksum)
    };
    LspEntry {
        lifetime,
        id,
        number,
        checksum,
    }
}

/// What is said where there is no key.
fn nothing(id: LspId) -> LspEntry
    ensures { result ≡ record { lifetime = 0; id = id; number = 0; checksum = 0 } }
{
    let (lifetime, number, checksum) = (0, 0, 0);
    LspEntry {
        lifetime,
        id,
        number,
        checksum,
    }
}

/// Whether there is a key, which has a number.
fn is_numbered(key: Option<Key>) -> bool
    ensures { result ≡ is_numbered key }
{
    match key {
        Some(key) => key.number > 0,
        None => false,
    }
}
