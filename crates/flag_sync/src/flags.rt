//! The rows of flags of all LSP IDs, and which circuits may have flags set.
ghost use Rattle.std.specs.Prelude.{◌≡◌, ◌≤◌, ◌<◌, [], max, Some, None, IfOk, IfErr, IsOk, IsSome, OnOk, OnErr, MatchOption, false};
ghost use Rattle.isis_base.specs.Identifiers.{lsp_number};
ghost use Rattle.lsp_store.specs.Maps.{find, change_at, change_all};
ghost use Rattle.lsp_store.specs.PageMaps.{with_put, without};
ghost use Rattle.flag_sync.specs.FlagRows.{done, row_less};
ghost use Rattle.flag_sync.specs.Walks.{done_due};
ghost use Rattle.flag_sync.specs.Among.{some_srm, some_ssn, floods_after, floods_after_all, answers_after, answers_after_all};

use crate::bits::{has_bit, with_bit, without_bit};
use crate::deed::{Deed, SrmDeed, SsnDeed};
use crate::flag_row::FlagRow;
use crate::row_edits::{Becomes, SecondLess, WhereDue};
use isis_base::{LspId, OutOfMemory};
use lsp_store::{Pages, Pairs};
use std::alloc::Global;
use std::marker::Model;

/// The rows of flags by LSP ID, and the circuits that may have SRM or SSN set in some row. Of any
/// other circuit it is known without a walk that it has no flag.
#[derive(Drop)]
pub(crate) struct Flags {
    rows: Pages<FlagRow>,
    floods: u64,
    answers: u64,
}

impl Model for Flags {
    ghost use Rattle.lsp_store.specs.PageMaps.{PageMap};
    ghost use Rattle.flag_sync.specs.declared.flag_row.FlagRow.{FlagRow};

    ghost Value = { PageMap FlagRow };

    ghost use Rattle.flag_sync.specs.Among.{AreAmong};

    ghost view = { λ f. f.rows };

    ghost invariant = { λ f. AreAmong f.floods f.answers f.rows.entries };
}

impl Flags {
    /// No rows.
    pub(crate) fn new(alloc: Global) -> Flags
        ensures entries { result.entries ≡ [] }
        ensures spare { result.spare ≡ 0 }
    {
        Flags {
            rows: Pages::new(alloc),
            floods: 0,
            answers: 0,
        }
    }

    /// The rows, lent.
    pub(crate) fn pages(&self) -> &Pages<FlagRow>
        ensures { result.now ≡ self.now }
    {
        &self.rows
    }

    /// All rows, in order of LSP ID.
    pub(crate) fn pairs(&self) -> Pairs<'_, FlagRow>
        ensures { result ≡ self.now.entries }
    {
        self.rows.pairs()
    }

    /// For how many more rows memory is taken already.
    pub(crate) fn spare(&self) -> usize
        ensures { result ≡ self.now.spare }
    {
        self.rows.spare()
    }

    /// Takes the memory for so many more rows.
    pub(crate) fn reserve(&mut self, more: usize) -> Result<(), OutOfMemory>
        ensures ok { OnOk result (self.new ≡ record self.old { spare = max self.old.spare more }) }
        ensures err { OnErr result (self.new ≡ self.old) }
        ensures enough { more ≤ self.old.spare → IsOk result }
    {
        self.rows.reserve(more)
    }

    /// The LSP ID's row.
    pub(crate) fn get(&self, id: LspId) -> Option<&FlagRow>
        ensures { MatchOption result (find self.now.entries (lsp_number id) ≡ None)
            (λ value. find self.now.entries (lsp_number id) ≡ Some value.now) }
    {
        self.rows.get(id)
    }

    /// Sets the LSP ID's row, and answers the one before. With `spare` of at least 1, or where the
    /// LSP ID has a row, it takes no memory.
    pub(crate) fn put(
        &mut self,
        id: LspId,
        row: FlagRow,
    ) -> Result<Option<FlagRow>, (FlagRow, OutOfMemory)>
        ensures before { IfOk result (λ before. before ≡ find self.old.entries (lsp_number id)) }
        ensures ok { OnOk result (self.new ≡ with_put self.old id row) }
        ensures err { OnErr result (self.new ≡ self.old) }
        ensures returned { IfErr result (λ back. back.0 ≡ row) }
        ensures spared { 0 < self.old.spare → IsOk result }
        ensures held { IsSome (find self.old.entries (lsp_number id)) → IsOk result }
    {
        self.floods |= row.srm;
        self.answers |= row.ssn;
        self.rows.put(id, row)
    }

    /// Takes the LSP ID's row out.
    pub(crate) fn remove(&mut self, id: LspId) -> Option<FlagRow>
        ensures before { result ≡ find self.old.entries (lsp_number id) }
        ensures removed { self.new ≡ without self.old (lsp_number id) }
    {
        self.rows.remove(id)
    }

    /// The LSP ID's row becomes this one, where there is one.
    pub(crate) fn set(&mut self, id: LspId, row: FlagRow)
        ensures entries { self.new.entries
            ≡ change_at (λ _. row) self.old.entries (lsp_number id) }
        ensures spare { self.new.spare ≡ self.old.spare }
    {
        self.floods |= row.srm;
        self.answers |= row.ssn;
        self.rows.change(id, &Becomes { row });
    }

    /// Does to the LSP ID's row what a deed says.
    pub(crate) fn change(&mut self, id: LspId, deed: &Deed)
        ensures entries { self.new.entries
            ≡ change_at (done deed.now) self.old.entries (lsp_number id) }
        ensures spare { self.new.spare ≡ self.old.spare }
    {
        self.floods = floods_after(self.floods, deed);
        self.answers = answers_after(self.answers, deed);
        self.rows.change(id, deed);
    }

    /// Does to all rows what a deed says.
    pub(crate) fn change_all(&mut self, deed: &Deed)
        ensures entries { self.new.entries ≡ change_all (done deed.now) self.old.entries }
        ensures spare { self.new.spare ≡ self.old.spare }
    {
        self.floods = floods_after_all(self.floods, deed);
        self.answers = answers_after_all(self.answers, deed);
        self.rows.change_all(deed);
    }

    /// Does what a deed says to the rows whose SRM is due on its circuit. Where the circuit has no
    /// SRM at all, that is known from then on.
    pub(crate) fn change_due(&mut self, deed: Deed)
        ensures entries { self.new.entries ≡ change_all (done_due deed) self.old.entries }
        ensures spare { self.new.spare ≡ self.old.spare }
    {
        let place = deed.place;
        if !has_bit(self.floods, place) {
            return;
        }
        if !has_srm(&self.rows, place) {
            self.floods = without_bit(self.floods, place);
            return;
        }
        self.floods = floods_after(self.floods, &deed);
        self.answers = answers_after(self.answers, &deed);
        self.rows.change_all(&WhereDue { deed });
    }

    /// A second less of what each set SRM flag waits.
    pub(crate) fn second(&mut self)
        ensures entries { self.new.entries ≡ change_all row_less self.old.entries }
        ensures spare { self.new.spare ≡ self.old.spare }
    {
        self.rows.change_all(&SecondLess);
    }

    /// Whether a circuit may have SRM in some row.
    pub(crate) fn may_flood(&self, place: u8) -> bool
        requires { place < 64 }
        ensures { result ≡ false → some_srm place self.now.entries ≡ false }
    {
        has_bit(self.floods, place)
    }

    /// Whether a circuit may have SSN in some row.
    pub(crate) fn may_answer(&self, place: u8) -> bool
        requires { place < 64 }
        ensures { result ≡ false → some_ssn place self.now.entries ≡ false }
    {
        has_bit(self.answers, place)
    }

    /// Equal rows, with as many spare.
    pub(crate) fn copy(&self) -> Result<Flags, OutOfMemory>
        ensures { IfOk result (λ copy. copy ≡ self.now) }
    {
        let rows = self.rows.copy()?;
        Ok(Flags {
            rows,
            floods: self.floods,
            answers: self.answers,
        })
    }
}

/// Whether some row has SRM on a circuit.
fn has_srm(rows: &Pages<FlagRow>, place: u8) -> bool
    requires { place < 64 }
    ensures { result ≡ some_srm place rows.now.entries }
{
    let mut left = rows.pairs();
    while let Some((_, row)) = left.next() {
        if has_bit(row.srm, place) {
            return true;
        }
    }
    false
}

/// The circuits that may have SRM after a deed on one row.
fn floods_after(floods: u64, deed: &Deed) -> u64
    ensures { result ≡ floods_after deed.now.srm deed.now.place floods }
{
    match deed.srm {
        SrmDeed::Keep => floods,
        SrmDeed::Set => with_bit(floods, deed.place),
        SrmDeed::Clear => floods,
        SrmDeed::Wait => floods,
    }
}

/// The circuits that may have SSN after a deed on one row.
fn answers_after(answers: u64, deed: &Deed) -> u64
    ensures { result ≡ answers_after deed.now.ssn deed.now.place answers }
{
    match deed.ssn {
        SsnDeed::Keep => answers,
        SsnDeed::Set => with_bit(answers, deed.place),
        SsnDeed::Clear => answers,
    }
}

/// The circuits that may have SRM after a deed on all rows.
fn floods_after_all(floods: u64, deed: &Deed) -> u64
    ensures { result ≡ floods_after_all deed.now.srm deed.now.place floods }
{
    match deed.srm {
        SrmDeed::Keep => floods,
        SrmDeed::Set => with_bit(floods, deed.place),
        SrmDeed::Clear => without_bit(floods, deed.place),
        SrmDeed::Wait => floods,
    }
}

/// The circuits that may have SSN after a deed on all rows.
fn answers_after_all(answers: u64, deed: &Deed) -> u64
    ensures { result ≡ answers_after_all deed.now.ssn deed.now.place answers }
{
    match deed.ssn {
        SsnDeed::Keep => answers,
        SsnDeed::Set => with_bit(answers, deed.place),
        SsnDeed::Clear => without_bit(answers, deed.place),
    }
}
