//! One level's link state database.
ghost use Rattle.std.specs.Prelude.{◌≡◌, ℕ, ◌+◌, ◌<◌, ◌≤◌, [], length, max, OnOk, OnErr, IfOk, IfErr, IsOk, IsSome, MatchOption, None, Some, Err, true, false, ◌⊎◌, ◌-◌, ◌^◌};
ghost use Rattle.std.specs.List.{AllByRecursion};
ghost use Rattle.isis_base.specs.Identifiers.{IsId, lsp_number};
ghost use Rattle.lsp_store.specs.Maps.{RisesFrom, find, between, change_all, first_where};
ghost use Rattle.lsp_store.specs.declared.fault.StoreFault.TheVariants.{Full, OutOfMemory};
ghost use Rattle.lsp_store.specs.Databases.{count_after, key_of, with_entry, without_entry, with_change, one_less, is_over, PutCause, ReserveCause, is_live, is_live_key, live_of};

use crate::change::Change;
use crate::entry::Entry;
use crate::fault::StoreFault;
use crate::live::Live;
use crate::noting::Noting;
use crate::pages::Pages;
use crate::range::Range;
use isis_base::numbers::ENTRY_LIMIT;
use isis_base::{Key, LspId, Order3, OutOfMemory, newer};
use std::alloc::Global;
use std::marker::Model;

/// A second less of what an entry has left, where that isn't 0.
#[derive(Drop)]
struct SecondLess;

impl Noting<Entry> for SecondLess {
    ghost use Rattle.lsp_store.specs.Databases.{one_less, is_over};

    ghost changed = { λ _ entry. one_less entry };

    ghost noted = { λ _ entry. is_over entry };

    fn change(&self, entry: &mut Entry) -> bool {
        entry.left = entry.left.saturating_sub(1);
        entry.left == 0
    }
}

/// The link state database of one level.
#[derive(Drop)]
pub struct Store {
    pages: Pages<Entry>,
    changes: u64,
}

impl Model for Store {
    ghost use Rattle.std.specs.Prelude.{length, ◌≤◌};
    ghost use Rattle.lsp_store.specs.Databases.{Database};

    ghost Value = { Database };

    ghost view = { λ s. record {
      entries = s.pages.entries;
      spare = s.pages.spare;
      changes = s.changes;
    } };

    ghost invariant = { λ s. length s.pages.entries ≤ 65536 };
}

/// How often a key changed, where it was one and is another.
fn recount(changes: u64, before: Option<Key>, after: Option<Key>) -> u64
    ensures { result ≡ count_after changes before after }
{
    match newer(before, after) {
        Order3::Same => changes,
        Order3::Older => changes.saturating_add(1),
        Order3::Newer => changes.saturating_add(1),
    }
}

/// The key that an entry gives.
fn key_in(entry: &Option<Entry>) -> Option<Key>
    ensures { result ≡ key_of entry.now }
{
    match entry {
        Some(entry) => entry.key,
        None => None,
    }
}

impl Store {
    /// The store without entries.
    pub fn new(alloc: Global) -> Store
        ensures entries { result.entries ≡ [] }
        ensures spare { result.spare ≡ 0 }
        ensures changes { result.changes ≡ 0 }
    {
        Store {
            pages: Pages::new(alloc),
            changes: 0,
        }
    }

    /// The number of entries: at most 65,536, in order of LSP ID, and each LSP ID at most once and
    /// of eight octets.
    pub fn len(&self) -> usize
        ensures same { result ≡ length self.now.entries }
        ensures most { result ≤ 65536 }
        ensures rises { RisesFrom 0 self.now.entries }
        ensures ids { AllByRecursion (λ pair. IsId pair.0) self.now.entries }
    {
        self.pages.len()
    }

    /// For how many more entries memory is taken already.
    pub fn spare(&self) -> usize
        ensures { result ≡ self.now.spare }
    {
        self.pages.spare()
    }

    /// How often a key changed.
    pub fn changes(&self) -> u64
        ensures { result ≡ self.now.changes }
    {
        self.changes
    }

    /// Takes the memory for so many more entries. `Full` exactly where 65,536 would be passed.
    pub fn reserve(&mut self, more: usize) -> Result<(), StoreFault>
        ensures ok { OnOk result (self.new ≡ record self.old { spare = max self.old.spare more }) }
        ensures cause { IfErr result (ReserveCause self.old more) }
        ensures full { 65536 < length self.old.entries + more → result ≡ Err Full }
        ensures err { OnErr result (self.new ≡ self.old) }
    {
        let len = self.pages.len();
        if more > ENTRY_LIMIT - len {
            return Err(StoreFault::Full);
        }
        match self.pages.reserve(more) {
            Ok(()) => Ok(()),
            Err(_) => Err(StoreFault::OutOfMemory),
        }
    }

    /// The LSP ID's entry.
    pub fn get(&self, id: LspId) -> Option<&Entry>
        ensures { MatchOption result (find self.now.entries (lsp_number id) ≡ None)
            (λ entry. find self.now.entries (lsp_number id) ≡ Some entry.now) }
    {
        self.pages.get(id)
    }

    /// Makes the next look-ups begin near an LSP ID. Nothing that contracts see depends on it.
    pub fn seek(&mut self, id: LspId)
        ensures { self.new ≡ self.old }
    {
        self.pages.seek(id);
    }

    /// Whether a new entry doesn't fit.
    fn is_full_for(&self, id: LspId) -> bool
        ensures yes { result ≡ true → (find self.now.entries (lsp_number id) ≡ None)
            × (65536 ≤ length self.now.entries) }
        ensures no { result ≡ false → (length self.now.entries < 65536) ⊎ IsSome
            (find self.now.entries (lsp_number id)) }
        ensures rises { RisesFrom 0 self.now.entries }
    {
        if self.pages.len() < ENTRY_LIMIT {
            return false;
        }
        match self.pages.get(id) {
            Some(_) => false,
            None => true,
        }
    }

    /// Sets the LSP ID's entry, and answers the one before. `Full` exactly where the LSP ID has
    /// none and 65,536 are there. With `spare` of at least 1, or where the LSP ID has one, it
    /// takes no memory.
    pub fn put(&mut self, id: LspId, entry: Entry) -> Result<Option<Entry>, (Entry, StoreFault)>
        ensures before { IfOk result (λ before. before ≡ find self.old.entries (lsp_number id)) }
        ensures ok { OnOk result (self.new ≡ with_entry self.old id entry) }
        ensures cause { IfErr result (λ back. PutCause self.old (lsp_number id) back.1) }
        ensures full { find self.old.entries (lsp_number id) ≡ None
            → 65536 ≤ length self.old.entries → IfOk result (λ _. ⊥) }
        ensures err { OnErr result (self.new ≡ self.old) }
        ensures returned { IfErr result (λ back. back.0 ≡ entry) }
    {
        if self.is_full_for(id) {
            return Err((entry, StoreFault::Full));
        }
        let key = entry.key;
        match self.pages.put(id, entry) {
            Ok(before) => {
                self.changes = recount(self.changes, key_in(&before), key);
                Ok(before)
            }
            Err((entry, _)) => Err((entry, StoreFault::OutOfMemory)),
        }
    }

    /// Takes the LSP ID's entry out.
    pub fn remove(&mut self, id: LspId) -> Option<Entry>
        ensures before { result ≡ find self.old.entries (lsp_number id) }
        ensures removed { self.new ≡ without_entry self.old (lsp_number id) }
    {
        let before = self.pages.remove(id);
        self.changes = recount(self.changes, key_in(&before), None);
        before
    }

    /// The entries from one LSP ID to another, both included, in order.
    pub fn range(&self, start: LspId, end: LspId) -> Range<'_>
        ensures { result ≡ between (lsp_number start) (lsp_number end) self.now.entries }
    {
        Range {
            walk: self.pages.range(start, end),
        }
    }

    /// The entries with a key that isn't purged, in order.
    pub fn live(&self) -> Live<'_>
        ensures { result ≡ live_of self.now.entries }
    {
        Live {
            walk: self.pages.pairs(),
        }
    }

    /// Changes the LSP ID's entry in place, where it has one.
    pub fn change<C: Change<Entry>>(&mut self, id: LspId, change: &C)
        ensures { self.new ≡ with_change self.old (lsp_number id) (C.changed change.now) }
    {
        let before = self.key(id);
        self.pages.change(id, change);
        self.changes = recount(self.changes, before, self.key(id));
    }

    /// A second less of what each entry has left, where that isn't 0 (ISO 10589 7.3.16.3), and the
    /// first LSP ID whose entry has none left then. It is one walk.
    pub fn age_first_over(&mut self) -> Option<LspId>
        ensures aged { self.new
            ≡ record self.old { entries = change_all one_less self.old.entries } }
        ensures first { result ≡ first_where is_over self.new.entries }
    {
        self.pages.note_all(&SecondLess)
    }

    /// The key that the LSP ID's entry has; none where it has no entry, or an empty one.
    pub fn key(&self, id: LspId) -> Option<Key>
        ensures { result ≡ key_of (find self.now.entries (lsp_number id)) }
    {
        match self.pages.get(id) {
            Some(entry) => entry.key,
            None => None,
        }
    }

    /// An equal store, with as many entries spare.
    pub fn copy(&self) -> Result<Store, OutOfMemory>
        ensures { IfOk result (λ copy. copy ≡ self.now) }
    {
        let pages = self.pages.copy()?;
        let changes = self.changes;
        Ok(Store { pages, changes })
    }

    /// The pages, lent.
    pub fn pages(&self) -> &Pages<Entry>
        ensures entries { result.now.entries ≡ self.now.entries }
    {
        &self.pages
    }
}
