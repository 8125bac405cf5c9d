//! SRM for all keys that are held, and for those that a CSNP doesn't list.
ghost use Rattle.std.specs.Prelude.{◌≡◌, ℕ, ◌-◌, ◌<◌, ◌≤◌};
ghost use Rattle.isis_base.specs.Identifiers.{lsp_number};
ghost use Rattle.isis_base.specs.Keys.{rank};
ghost use Rattle.model_router.specs.Cells.{Cell};
ghost use Rattle.model_router.specs.Openings.{mark_all};
ghost use Rattle.model_router.specs.SnpTable.{lists, is_missed, hear_range};
ghost use Rattle.lsp_store.specs.Maps.{between};
ghost use Rattle.flag_sync.specs.Heard.{entries_of};
ghost use Rattle.flag_sync.specs.Marks.{marks, some_pass, any_cell, has_key, is_unlisted};
ghost use Rattle.flag_sync.specs.BookStates.{book_of, IsCircuit, SameCircuits};

use crate::book::Book;
use crate::deed::{Deed, SrmDeed, SsnDeed};
use crate::flags::Flags;
use crate::known::has_live;
use isis_base::{LspEntry, LspId};
use lsp_store::Store;

impl Book {
    /// The range of a CSNP is heard on a circuit (ISO 10589 7.3.15.2): each live LSP in it that
    /// isn't listed gets SRM there. True exactly where some LSP ID does. It takes no memory.
    pub fn hear_csnp_range(
        &mut self,
        circuit: u8,
        start: LspId,
        end: LspId,
        listed: &[LspEntry],
    ) -> bool
        requires { IsCircuit circuit self.old.circuits }
        ensures book { book_of self.new ≡ hear_range (book_of self.old) (circuit - 1)
            (lsp_number start) (lsp_number end) (entries_of listed.now) }
        ensures missed { result ≡ any_cell (is_missed (lsp_number start) (lsp_number end)
            (entries_of listed.now)) (book_of self.old).cells }
        ensures store { self.new.store ≡ self.old.store }
        ensures rest { SameCircuits self.old self.new }
    {
        let place = self.place(circuit);
        mark_missed(&self.store, &mut self.flags, place, start, end, listed)
    }

    /// What `hear_csnp_range` would answer for an open circuit.
    pub fn would_flag_range(&self, start: LspId, end: LspId, listed: &[LspEntry]) -> bool
        ensures { result ≡ any_cell (is_missed (lsp_number start) (lsp_number end)
            (entries_of listed.now)) (book_of self.now).cells }
    {
        has_missed(&self.store, start, end, listed)
    }

    /// Sets SRM on a circuit for every key that is held (ISO 10589 7.3.17).
    pub fn mark_all(&mut self, circuit: u8)
        requires { IsCircuit circuit self.old.circuits }
        ensures book { book_of self.new ≡ mark_all (book_of self.old) (circuit - 1) }
        ensures store { self.new.store ≡ self.old.store }
        ensures rest { SameCircuits self.old self.new }
    {
        let place = self.place(circuit);
        mark_keys(&self.store, &mut self.flags, place);
    }
}

/// Sets SRM for every key that is held.
fn mark_keys(store: &Store, flags: &mut Flags, place: u8)
    requires { place < 64 }
    ensures rows { flags.new.entries ≡ marks has_key place store.now.entries flags.old.entries }
    ensures spare { flags.new.spare ≡ flags.old.spare }
{
    let deed = Deed {
        place,
        srm: SrmDeed::Set,
        ssn: SsnDeed::Keep,
    };
    let mut left = store.pages().pairs();
    while let Some((id, entry)) = left.next() {
        if entry.key.is_some() {
            flags.change(id, &deed);
        }
    }
}

/// Sets SRM for each live LSP from one LSP ID to another that isn't listed, and answers whether
/// there is one.
fn mark_missed(
    store: &Store,
    flags: &mut Flags,
    place: u8,
    start: LspId,
    end: LspId,
    listed: &[LspEntry],
) -> bool
    requires { place < 64 }
    ensures rows { flags.new.entries ≡ marks (is_unlisted listed.now) place
        (between (lsp_number start) (lsp_number end) store.now.entries) flags.old.entries }
    ensures some { result ≡ some_pass (is_unlisted listed.now)
        (between (lsp_number start) (lsp_number end) store.now.entries) }
    ensures spare { flags.new.spare ≡ flags.old.spare }
{
    let deed = Deed {
        place,
        srm: SrmDeed::Set,
        ssn: SsnDeed::Keep,
    };
    let mut some = false;
    let mut left = store.range(start, end);
    while let Some((id, entry)) = left.next() {
        if has_live(entry.key) && !is_listed(listed, id.to_number()) {
            flags.change(id, &deed);
            some = true;
        }
    }
    some
}

/// Whether there is a live LSP from one LSP ID to another that isn't listed.
fn has_missed(store: &Store, start: LspId, end: LspId, listed: &[LspEntry]) -> bool
    ensures { result ≡ some_pass (is_unlisted listed.now)
        (between (lsp_number start) (lsp_number end) store.now.entries) }
{
    let mut left = store.range(start, end);
    while let Some((id, entry)) = left.next() {
        if has_live(entry.key) && !is_listed(listed, id.to_number()) {
            return true;
        }
    }
    false
}

/// Whether a number is that of an LSP ID that is listed.
fn is_listed(listed: &[LspEntry], n: u64) -> bool
    ensures { result ≡ lists (entries_of listed.now) n }
{
    let mut left = listed;
    while let [entry, more @ ..] = left {
        if entry.id.to_number() == n {
            return true;
        }
        left = more;
    }
    false
}
