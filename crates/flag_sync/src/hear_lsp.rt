//! An LSP that is heard: what each row of the table does.
ghost use Rattle.std.specs.Prelude.{◌≡◌, ℕ, ◌≤◌, ◌<◌, ◌-◌, length, Some, None, IfOk, OnOk, OnErr, Ok, Err, true};
ghost use Rattle.isis_base.specs.Identifiers.{lsp_number};
ghost use Rattle.model_router.specs.declared.lsp_case.LspCase.TheVariants as case;
ghost use Rattle.model_router.specs.Cells.{Cell, srm_off};
ghost use Rattle.model_router.specs.Books.{cell_at, rank_at, set_cell};
ghost use Rattle.model_router.specs.LspTable.{acked, ssn_stored, lsp_row, met, hear_lsp};
ghost use Rattle.lsp_store.specs.declared.fault.StoreFault.TheVariants as fault;
ghost use Rattle.lsp_store.specs.Maps.{find};
ghost use Rattle.flag_sync.specs.Deeds.{deed_cell};
ghost use Rattle.flag_sync.specs.declared.heard.LspHeard.{LspHeard};
ghost use Rattle.flag_sync.specs.Heard.{heard_of, answer_of, makes_entry};
ghost use Rattle.flag_sync.specs.BookStates.{book_of, BookState, IsCircuit, IsFullFor, SameCircuits, UsesRoom};

use crate::bits::{has_bit, only_bit, with_bit, without_bit};
use crate::book::Book;
use crate::deed::{Deed, SrmDeed, SsnDeed};
use crate::flag_row::FlagRow;
use crate::headers::{heard_entry, purge_entry};
use crate::heard::{LspAnswer, LspHeard};
use crate::lsp_rows::{lsp_answer, lsp_row_of};
use isis_base::LspId;
use lsp_store::StoreFault;
use model_router::{LspCase, Whose};

impl Book {
    /// An LSP is heard on a circuit (ISO 10589 7.3.15.1, 7.3.16). `Full` exactly where it is to be
    /// kept, its LSP ID isn't held, and 65,536 entries are.
    pub fn hear_lsp(
        &mut self,
        circuit: u8,
        lsp: &LspHeard<'_>,
        whose: Whose,
    ) -> Result<LspAnswer, StoreFault>
        requires circuit { IsCircuit circuit self.old.circuits }
        requires number { 0 < lsp.now.entry.number }
        requires octets { 27 ≤ length lsp.now.octets.now }
        ensures book { OnOk result (book_of self.new
            ≡ hear_lsp (book_of self.old) (circuit - 1) whose (heard_of lsp.now)) }
        ensures answer { IfOk result (λ answer. answer
            ≡ answer_of (met (book_of self.old) whose (heard_of lsp.now)) lsp.now) }
        ensures rest { OnOk result (SameCircuits self.old self.new) }
        ensures err { OnErr result (self.new ≡ self.old) }
        ensures cause { result ≡ Err fault.Full → IsFullFor self.old (lsp_number lsp.now.entry.id) }
        ensures full { makes_entry (met (book_of self.old) whose (heard_of lsp.now)) ≡ true
            → IsFullFor self.old (lsp_number lsp.now.entry.id) → IfOk result (λ _. ⊥) }
        ensures room { OnOk result (UsesRoom self.old self.new (lsp_number lsp.now.entry.id)) }
    {
        let known = self.known(lsp.entry.id);
        let row = lsp_row_of(&known, lsp, whose);
        let place = self.place(circuit);
        match self.meet_lsp(place, row, lsp) {
            Ok(()) => {}
            Err(fault) => return Err(fault),
        }
        Ok(lsp_answer(row, lsp))
    }

    /// Does what a row of the table says.
    fn meet_lsp(&mut self, place: u8, row: LspCase, lsp: &LspHeard<'_>) -> Result<(), StoreFault>
        requires place { place < 64 }
        requires number { 0 < lsp.now.entry.number }
        requires octets { 27 ≤ length lsp.now.octets.now }
        requires key { row ≡ case.Confused
            → 0 < rank_at (book_of self.old) (lsp_number lsp.now.entry.id) }
        ensures book { OnOk result (book_of self.new
            ≡ set_cell (book_of self.old) (lsp_number lsp.now.entry.id)
            (lsp_row row self.old.opened self.old.points place
            (cell_at (book_of self.old) (lsp_number lsp.now.entry.id)) (heard_of lsp.now))) }
        ensures rest { OnOk result (SameCircuits self.old self.new) }
        ensures err { OnErr result (self.new ≡ self.old) }
        ensures cause { result ≡ Err fault.Full → IsFullFor self.old (lsp_number lsp.now.entry.id) }
        ensures full { makes_entry row ≡ true
            → IsFullFor self.old (lsp_number lsp.now.entry.id) → IfOk result (λ _. ⊥) }
        ensures room { OnOk result (UsesRoom self.old self.new (lsp_number lsp.now.entry.id)) }
    {
        let id = lsp.entry.id;
        match row {
            LspCase::Outbid => self.stay(id),
            LspCase::PurgedOwn => return self.keep_purge(lsp),
            LspCase::AckPurge => self.erase(id),
            LspCase::Confused => self.purge(id),
            LspCase::Stored => return self.keep_heard(place, lsp),
            LspCase::Same => self.acknowledge(place, id),
            LspCase::Older => self.send_back(place, id),
        }
        Ok(())
    }

    /// Nothing changes.
    pub(crate) fn stay(&self, _id: LspId)
        ensures { book_of self.now ≡ set_cell (book_of self.now) (lsp_number _id)
            (cell_at (book_of self.now) (lsp_number _id)) }
    {
        let _opened = self.opened;
    }

    /// An LSP is kept as its purge, with SRM set and SSN clear on all open circuits (ISO 10589
    /// 7.3.16.4).
    pub fn keep_purge(&mut self, lsp: &LspHeard<'_>) -> Result<(), StoreFault>
        requires number { 0 < lsp.now.entry.number }
        requires octets { 27 ≤ length lsp.now.octets.now }
        ensures book { (place : ℕ) → OnOk result (book_of self.new
            ≡ set_cell (book_of self.old) (lsp_number lsp.now.entry.id)
            (lsp_row case.PurgedOwn self.old.opened self.old.points place
            (cell_at (book_of self.old) (lsp_number lsp.now.entry.id)) (heard_of lsp.now))) }
        ensures rest { OnOk result (SameCircuits self.old self.new) }
        ensures err { OnErr result (self.new ≡ self.old) }
        ensures cause { result ≡ Err fault.Full → IsFullFor self.old (lsp_number lsp.now.entry.id) }
        ensures full { IsFullFor self.old (lsp_number lsp.now.entry.id) → IfOk result (λ _. ⊥) }
        ensures room { OnOk result (UsesRoom self.old self.new (lsp_number lsp.now.entry.id)) }
    {
        let entry = match purge_entry(self.alloc, lsp) {
            Ok(entry) => entry,
            Err(_) => return Err(StoreFault::OutOfMemory),
        };
        match self.keep(lsp.entry.id, entry, FlagRow::new(self.opened, 0)) {
            Ok(()) => {}
            Err((_, fault)) => return Err(fault),
        }
        Ok(())
    }

    /// A newer LSP is kept, and flooded on all circuits but the one that it came on, where it is
    /// acknowledged.
    fn keep_heard(&mut self, place: u8, lsp: &LspHeard<'_>) -> Result<(), StoreFault>
        requires place { place < 64 }
        requires number { 0 < lsp.now.entry.number }
        requires octets { 27 ≤ length lsp.now.octets.now }
        ensures book { OnOk result (book_of self.new
            ≡ set_cell (book_of self.old) (lsp_number lsp.now.entry.id)
            (lsp_row case.Stored self.old.opened self.old.points place
            (cell_at (book_of self.old) (lsp_number lsp.now.entry.id)) (heard_of lsp.now))) }
        ensures rest { OnOk result (SameCircuits self.old self.new) }
        ensures err { OnErr result (self.new ≡ self.old) }
        ensures cause { result ≡ Err fault.Full → IsFullFor self.old (lsp_number lsp.now.entry.id) }
        ensures full { IsFullFor self.old (lsp_number lsp.now.entry.id) → IfOk result (λ _. ⊥) }
        ensures room { OnOk result (UsesRoom self.old self.new (lsp_number lsp.now.entry.id)) }
    {
        let entry = match heard_entry(self.alloc, lsp) {
            Ok(entry) => entry,
            Err(_) => return Err(StoreFault::OutOfMemory),
        };
        let ssn = self.ssn_of_stored(place, lsp.entry.id);
        let row = FlagRow::new(without_bit(self.opened, place), ssn);
        match self.keep(lsp.entry.id, entry, row) {
            Ok(()) => {}
            Err((_, fault)) => return Err(fault),
        }
        Ok(())
    }

    /// SSN behind a newer LSP: set on the point-to-point circuit it came on, as it was on a LAN,
    /// and clear elsewhere.
    fn ssn_of_stored(&self, place: u8, id: LspId) -> u64
        requires { place < 64 }
        ensures { result
            ≡ ssn_stored self.now.points place (cell_at (book_of self.now) (lsp_number id)) }
    {
        if has_bit(self.points, place) {
            return with_bit(0, place);
        }
        match self.flags.get(id) {
            Some(row) => only_bit(row.ssn, place),
            None => 0,
        }
    }

    /// What is held is acknowledged.
    fn acknowledge(&mut self, place: u8, id: LspId)
        requires { place < 64 }
        ensures book { (lsp : LspHeard) → book_of self.new
            ≡ set_cell (book_of self.old) (lsp_number id)
            (lsp_row case.Same self.old.opened self.old.points place
            (cell_at (book_of self.old) (lsp_number id)) (heard_of lsp)) }
        ensures rest { SameCircuits self.old self.new }
        ensures store { self.new.store ≡ self.old.store }
    {
        let deed = ack_deed(self.points, place);
        self.flag(id, &deed);
    }

    /// What is held is sent back.
    pub(crate) fn send_back(&mut self, place: u8, id: LspId)
        requires { place < 64 }
        ensures book { (lsp : LspHeard) → book_of self.new
            ≡ set_cell (book_of self.old) (lsp_number id)
            (lsp_row case.Older self.old.opened self.old.points place
            (cell_at (book_of self.old) (lsp_number id)) (heard_of lsp)) }
        ensures rest { SameCircuits self.old self.new }
        ensures store { self.new.store ≡ self.old.store }
    {
        let deed = Deed {
            place,
            srm: SrmDeed::Set,
            ssn: SsnDeed::Clear,
        };
        self.flag(id, &deed);
    }
}

/// An acknowledgement: SRM is clear on the circuit, and SSN set there where it is point-to-point.
fn ack_deed(points: u64, place: u8) -> Deed
    requires { place < 64 }
    ensures { (cell : Cell) → deed_cell result cell ≡ acked points place (srm_off cell place) }
{
    let srm = SrmDeed::Clear;
    if has_bit(points, place) {
        let ssn = SsnDeed::Set;
        return Deed { place, srm, ssn };
    }
    let ssn = SsnDeed::Keep;
    Deed { place, srm, ssn }
}
