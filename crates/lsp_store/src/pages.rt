//! An ordered map from LSP IDs, in pages.
ghost use Rattle.std.specs.Prelude.{◌≡◌, ℕ, ◌+◌, ◌<◌, ◌≤◌, ◌-◌, ◌^◌, ◌⊎◌, [], length, max, OnOk, OnErr, IfOk, IfErr, IsOk, IsSome, MatchOption, None, Some, vec_len, vec_capacity};
ghost use Rattle.std.specs.List.{AllByRecursion};
ghost use Rattle.isis_base.specs.Identifiers.{IsId, lsp_number};
ghost use Rattle.lsp_store.specs.Maps.{RisesFrom, find, put, erase, between, from, change_at, change_all, first_where};
ghost use Rattle.lsp_store.specs.Places.{AllFilled, AllEmpty, HasRoom, flatten};
ghost use Rattle.lsp_store.specs.PageMaps.{with_put, without};
ghost use Rattle.lsp_store.specs.Rooms.{IsEnough, AreDense};

use crate::change::{Change, change_each, change_held};
use crate::copy::{TryCopy, copy_pages};
use crate::edits::{put_held, put_new, take_out};
use crate::noting::{Noting, note_each};
use crate::page::Page;
use crate::pairs::Pairs;
use crate::places::{home_near, search_near, value_at};
use crate::range::{PageRange, pairs_from, range_of};
use crate::rooms::{claim, fill_pool, pages_for};
use isis_base::laws::lsp_id_law;
use isis_base::{LspId, OutOfMemory};
use std::alloc::Global;
use std::marker::Model;

/// An ordered map from LSP IDs, kept in pages of 1 to 64 pairs.
#[derive(Drop)]
pub struct Pages<T> {
    alloc: Global,
    pages: Vec<Page<T>>,
    pool: Vec<Page<T>>,
    len: usize,
    spare: usize,
    near: usize,
}

impl<T> Model for Pages<T> {
    ghost use Rattle.std.specs.Prelude.{vec_len, vec_capacity};
    ghost use Rattle.lsp_store.specs.PageMaps.{PageMap};

    ghost Value = { PageMap T };

    ghost use Rattle.lsp_store.specs.Places.{flatten};
    ghost use Rattle.lsp_store.specs.Inside.{IsPaged};

    ghost view = { λ p. record { entries = flatten p.pages.items; spare = p.spare } };

    ghost invariant = { λ p. IsPaged p.pages.items p.pool.items (vec_len p.pages) (vec_len p.pool)
        (vec_capacity p.pages) (vec_capacity p.pool) p.len p.spare };
}

impl<T: Drop> Pages<T> {
    /// The empty map.
    pub fn new(alloc: Global) -> Pages<T>
        ensures entries { result.entries ≡ [] }
        ensures spare { result.spare ≡ 0 }
    {
        Pages {
            alloc,
            pages: Vec::new(alloc),
            pool: Vec::new(alloc),
            len: 0,
            spare: 0,
            near: 0,
        }
    }

    /// The number of pairs, which are in order of LSP ID, each LSP ID at most once and of eight
    /// octets.
    pub fn len(&self) -> usize
        ensures same { result ≡ length self.now.entries }
        ensures rises { RisesFrom 0 self.now.entries }
        ensures ids { AllByRecursion (λ pair. IsId pair.0) self.now.entries }
    {
        self.len
    }

    /// For how many more pairs memory is taken already.
    pub fn spare(&self) -> usize
        ensures { result ≡ self.now.spare }
    {
        self.spare
    }

    /// Takes the memory for so many more pairs.
    pub fn reserve(&mut self, more: usize) -> Result<(), OutOfMemory>
        ensures ok { OnOk result (self.new ≡ record self.old { spare = max self.old.spare more }) }
        ensures err { OnErr result (self.new ≡ self.old) }
        ensures enough { more ≤ self.old.spare → IsOk result }
    {
        if more <= self.spare {
            return Ok(());
        }
        if more > usize::MAX - self.len {
            return Err(OutOfMemory);
        }
        if more <= self.pool.len() {
            self.spare = more;
            return Ok(());
        }
        let wanted = pages_for(&self.pages, more);
        match fill_pool(self.alloc, &mut self.pages, &mut self.pool, wanted) {
            Ok(()) => {}
            Err(_) => return Err(OutOfMemory),
        }
        self.spare = more;
        Ok(())
    }

    /// The LSP ID's value.
    pub fn get(&self, id: LspId) -> Option<&T>
        ensures { MatchOption result (find self.now.entries (lsp_number id) ≡ None)
            (λ value. find self.now.entries (lsp_number id) ≡ Some value.now) }
    {
        let n = id.to_number();
        match search_near(&self.pages, self.near, n) {
            Ok(at) => Some(value_at(&self.pages, at, n)),
            Err(_) => None,
        }
    }

    /// Makes the next look-ups begin near an LSP ID. Nothing that contracts see depends on it.
    pub fn seek(&mut self, id: LspId)
        ensures { self.new ≡ self.old }
    {
        if self.pages.is_empty() {
            return;
        }
        self.near = home_near(&self.pages, self.near, id.to_number());
    }

    /// Sets the LSP ID's value, and answers the one before. With `spare` of at least 1, or where
    /// the LSP ID has a value, it takes no memory.
    pub fn put(&mut self, id: LspId, value: T) -> Result<Option<T>, (T, OutOfMemory)>
        ensures before { IfOk result (λ before. before ≡ find self.old.entries (lsp_number id)) }
        ensures ok { OnOk result (self.new ≡ with_put self.old id value) }
        ensures err { OnErr result (self.new ≡ self.old) }
        ensures returned { IfErr result (λ back. back.0 ≡ value) }
        ensures spared { 0 < self.old.spare → IsOk result }
        ensures held { IsSome (find self.old.entries (lsp_number id)) → IsOk result }
    {
        lsp_id_law(id);
        match search_near(&self.pages, self.near, id.to_number()) {
            Ok(at) => {
                self.near = at.0;
                return Ok(Some(put_held(&mut self.pages, at, id, value)));
            }
            Err(at) => {
                self.near = at.0;
                let left = match claim(
                    self.alloc,
                    &mut self.pages,
                    &mut self.pool,
                    self.len,
                    self.spare,
                ) {
                    Ok(left) => left,
                    Err(fault) => return Err((value, fault)),
                };
                put_new(&mut self.pages, &mut self.pool, at, id, value);
                self.len += 1;
                self.spare = left;
                Ok(None)
            }
        }
    }

    /// Takes the LSP ID's value out.
    pub fn remove(&mut self, id: LspId) -> Option<T>
        ensures before { result ≡ find self.old.entries (lsp_number id) }
        ensures removed { self.new ≡ without self.old (lsp_number id) }
    {
        let n = id.to_number();
        match search_near(&self.pages, self.near, n) {
            Ok(at) => {
                self.near = at.0;
                let value = take_out(&mut self.pages, &mut self.pool, at, n);
                self.len -= 1;
                Some(value)
            }
            Err(_) => None,
        }
    }

    /// The pages, lent: of 1 to 64 pairs each, and any two neighbours of more than 32 together.
    /// Their pairs are those of the map in order, one page after another.
    pub fn list(&self) -> &[Page<T>]
        ensures all { flatten result.now ≡ self.now.entries }
        ensures filled { AllFilled result.now }
        ensures dense { AreDense result.now }
        ensures rises { RisesFrom 0 self.now.entries }
    {
        self.pages.as_slice()
    }

    /// The pairs from one LSP ID to another, both included, in order.
    pub fn range(&self, start: LspId, end: LspId) -> PageRange<'_, T>
        ensures { result ≡ between (lsp_number start) (lsp_number end) self.now.entries }
    {
        range_of(&self.pages, start.to_number(), end.to_number())
    }

    /// All pairs, in order.
    pub fn pairs(&self) -> Pairs<'_, T>
        ensures { result ≡ self.now.entries }
    {
        Pairs::new(&[], &self.pages)
    }

    /// The pairs from an LSP ID on, in order.
    pub fn pairs_from(&self, start: LspId) -> Pairs<'_, T>
        ensures { result ≡ from (lsp_number start) self.now.entries }
    {
        let (here, rest) = pairs_from(&self.pages, start.to_number());
        Pairs::new(here, rest)
    }

    /// Changes the LSP ID's value in place, where it has one.
    pub fn change<C: Change<T>>(&mut self, id: LspId, change: &C)
        ensures entries { self.new.entries
            ≡ change_at (C.changed change.now) self.old.entries (lsp_number id) }
        ensures spare { self.new.spare ≡ self.old.spare }
    {
        let n = id.to_number();
        match search_near(&self.pages, self.near, n) {
            Ok(at) => {
                self.near = at.0;
                change_held(&mut self.pages, at, n, change);
            }
            Err(_) => {}
        }
    }

    /// Changes all values in place.
    pub fn change_all<C: Change<T>>(&mut self, change: &C)
        ensures entries { self.new.entries ≡ change_all (C.changed change.now) self.old.entries }
        ensures spare { self.new.spare ≡ self.old.spare }
    {
        change_each(&mut self.pages, change);
    }

    /// Changes all values in place, and answers the first LSP ID whose value passes then.
    pub fn note_all<C: Noting<T>>(&mut self, change: &C) -> Option<LspId>
        ensures entries { self.new.entries ≡ change_all (C.changed change.now) self.old.entries }
        ensures first { result ≡ first_where (C.noted change.now) self.new.entries }
        ensures spare { self.new.spare ≡ self.old.spare }
    {
        note_each(&mut self.pages, change)
    }
}

impl<T: Drop + TryCopy> Pages<T> {
    /// An equal map, for as many more pairs of which memory is taken.
    pub fn copy(&self) -> Result<Pages<T>, OutOfMemory>
        ensures { IfOk result (λ copy. copy ≡ self.now) }
    {
        let pages = match copy_pages(self.alloc, &self.pages) {
            Ok(pages) => pages,
            Err(fault) => return Err(fault),
        };
        let pool = match Vec::with_capacity(self.alloc, pages.len()) {
            Ok(pool) => pool,
            Err(_) => return Err(OutOfMemory),
        };
        let mut copy = Pages {
            alloc: self.alloc,
            pages,
            pool,
            len: self.len,
            spare: 0,
            near: 0,
        };
        match copy.reserve(self.spare) {
            Ok(()) => Ok(copy),
            Err(fault) => Err(fault),
        }
    }
}
