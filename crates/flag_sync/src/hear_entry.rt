//! An entry of a sequence number PDU that is heard: what each row of the table does.
ghost use Rattle.std.specs.Prelude.{◌≡◌, ℕ, ◌≤◌, ◌<◌, ◌-◌, ◌⊎◌, ◌==◌, length, Some, None, Bool};
ghost use Rattle.isis_base.specs.Identifiers.{lsp_number};
ghost use Rattle.model_router.specs.declared.snp_case.SnpCase.TheVariants as case;
ghost use Rattle.model_router.specs.declared.whose.Whose.{Whose};
ghost use Rattle.model_router.specs.Cells.{Cell, ssn_on};
ghost use Rattle.model_router.specs.Books.{cell_at, rank_at, is_full, set_cell};
ghost use Rattle.model_router.specs.SnpTable.{freed, asked, snp_row, snp_case, sets_flag, hear_entry};
ghost use Rattle.flag_sync.specs.Deeds.{deed_cell};
ghost use Rattle.flag_sync.specs.Heard.{entry_of, entry_answer_of};
ghost use Rattle.flag_sync.specs.BookStates.{book_of, HasRoom, IsCircuit, KeepsRoom, SameCircuits};

use crate::bits::{has_bit, with_bit};
use crate::book::Book;
use crate::deed::{Deed, SrmDeed, SsnDeed};
use crate::flag_row::FlagRow;
use crate::headers::PURGE_SECONDS;
use crate::heard::EntryAnswer;
use crate::snp_rows::{is_flagged, snp_answer, snp_row_of};
use isis_base::numbers::ENTRY_LIMIT;
use isis_base::{LspEntry, LspId, Octets};
use lsp_store::Entry;
use model_router::{SnpCase, Whose};

impl Book {
    /// An entry of a sequence number PDU is heard on a circuit (ISO 10589 7.3.15.2). It takes no
    /// memory.
    pub fn hear_entry(&mut self, circuit: u8, entry: &LspEntry, whose: Whose) -> EntryAnswer
        requires circuit { IsCircuit circuit self.old.circuits }
        requires room { HasRoom self.old }
        ensures book { book_of self.new
            ≡ hear_entry (book_of self.old) (circuit - 1) whose (entry_of entry.now) }
        ensures answer { result ≡ entry_answer_of (snp_case whose
            (cell_at (book_of self.old) (lsp_number entry.now.id)) (entry_of entry.now)) entry.now }
        ensures rest { SameCircuits self.old self.new }
        ensures room { KeepsRoom self.old self.new }
    {
        self.seek(entry.id);
        let known = self.known(entry.id);
        let row = snp_row_of(&known, entry, whose);
        let place = self.place(circuit);
        self.meet_entry(place, row, entry.id);
        snp_answer(row, entry)
    }

    /// What `flagged` of `hear_entry` would be on an open circuit, whosever the LSP is.
    pub fn would_flag(&self, entry: &LspEntry) -> bool
        ensures { (whose : Whose) → result ≡ sets_flag (snp_case whose
            (cell_at (book_of self.now) (lsp_number entry.now.id)) (entry_of entry.now)) }
    {
        let known = self.known(entry.id);
        is_flagged(snp_row_of(&known, entry, Whose::Other))
    }

    /// Does what a row of the table says.
    fn meet_entry(&mut self, place: u8, row: SnpCase, id: LspId)
        requires place { place < 64 }
        requires room { HasRoom self.old }
        requires key { row ≡ case.Confused → 0 < rank_at (book_of self.old) (lsp_number id) }
        ensures book { book_of self.new ≡ set_cell (book_of self.old) (lsp_number id)
            (snp_row row (is_full (book_of self.old)) self.old.opened self.old.points place
            (cell_at (book_of self.old) (lsp_number id))) }
        ensures rest { SameCircuits self.old self.new }
        ensures room { KeepsRoom self.old self.new }
    {
        match row {
            SnpCase::Nothing => self.stay(id),
            SnpCase::Outbid => self.stay(id),
            SnpCase::Confused => self.purge(id),
            SnpCase::Same => self.free(place, id),
            SnpCase::Older => self.send_held(place, id),
            SnpCase::Newer => self.ask_again(place, id),
            SnpCase::Asked => self.ask(place, id),
            SnpCase::Unasked => self.stay(id),
        }
    }

    /// What is held is acknowledged by the neighbour: on a point-to-point circuit SRM is clear
    /// there.
    fn free(&mut self, place: u8, id: LspId)
        requires { place < 64 }
        ensures book { (full : Bool) → book_of self.new
            ≡ set_cell (book_of self.old) (lsp_number id)
            (snp_row case.Same full self.old.opened self.old.points place
            (cell_at (book_of self.old) (lsp_number id))) }
        ensures rest { SameCircuits self.old self.new }
        ensures room { KeepsRoom self.old self.new }
    {
        let deed = free_deed(self.points, place);
        self.flag(id, &deed);
    }

    /// What is held is sent, since the neighbour's is older.
    fn send_held(&mut self, place: u8, id: LspId)
        requires { place < 64 }
        ensures book { (full : Bool) → book_of self.new
            ≡ set_cell (book_of self.old) (lsp_number id)
            (snp_row case.Older full self.old.opened self.old.points place
            (cell_at (book_of self.old) (lsp_number id))) }
        ensures rest { SameCircuits self.old self.new }
        ensures room { KeepsRoom self.old self.new }
    {
        let deed = Deed {
            place,
            srm: SrmDeed::Set,
            ssn: SsnDeed::Clear,
        };
        self.flag(id, &deed);
    }

    /// A newer one than what is held is asked for.
    fn ask_again(&mut self, place: u8, id: LspId)
        requires { place < 64 }
        ensures book { (full : Bool) → book_of self.new
            ≡ set_cell (book_of self.old) (lsp_number id)
            (snp_row case.Newer full self.old.opened self.old.points place
            (cell_at (book_of self.old) (lsp_number id))) }
        ensures rest { SameCircuits self.old self.new }
        ensures room { KeepsRoom self.old self.new }
    {
        let deed = ask_deed(self.points, place);
        self.flag(id, &deed);
    }

    /// What isn't held is asked for, by an empty entry; with a full store nothing is made.
    fn ask(&mut self, place: u8, id: LspId)
        requires place { place < 64 }
        requires room { HasRoom self.old }
        ensures book { book_of self.new ≡ set_cell (book_of self.old) (lsp_number id)
            (snp_row case.Asked (is_full (book_of self.old)) self.old.opened self.old.points place
            (cell_at (book_of self.old) (lsp_number id))) }
        ensures rest { SameCircuits self.old self.new }
        ensures room { KeepsRoom self.old self.new }
    {
        match self.store.get(id) {
            Some(_) => {
                let deed = Deed {
                    place,
                    srm: SrmDeed::Keep,
                    ssn: SsnDeed::Set,
                };
                self.flag(id, &deed);
                return;
            }
            None => {}
        }
        if self.store.len() >= ENTRY_LIMIT {
            self.stay(id);
            return;
        }
        let entry = Entry {
            key: None,
            checksum: 0,
            flags: 0,
            left: PURGE_SECONDS,
            octets: Octets::new(self.alloc),
        };
        self.keep(id, entry, FlagRow::new(0, with_bit(0, place)))
            .unwrap();
    }
}

/// On a point-to-point circuit SRM is clear.
fn free_deed(points: u64, place: u8) -> Deed
    requires { place < 64 }
    ensures { (cell : Cell) → deed_cell result cell ≡ freed points place cell }
{
    let ssn = SsnDeed::Keep;
    if has_bit(points, place) {
        let srm = SrmDeed::Clear;
        return Deed { place, srm, ssn };
    }
    let srm = SrmDeed::Keep;
    Deed { place, srm, ssn }
}

/// SSN is set, and on a point-to-point circuit SRM is clear.
fn ask_deed(points: u64, place: u8) -> Deed
    requires { place < 64 }
    ensures { (cell : Cell) → deed_cell result cell ≡ ssn_on (freed points place cell) place }
{
    let ssn = SsnDeed::Set;
    if has_bit(points, place) {
        let srm = SrmDeed::Clear;
        return Deed { place, srm, ssn };
    }
    let srm = SrmDeed::Keep;
    Deed { place, srm, ssn }
}
