//! What is held of one LSP ID: asked, replaced and given up.
ghost use Rattle.std.specs.Prelude.{◌≡◌, ℕ, ◌≤◌, ◌<◌, ◌-◌, length, false, Some, None, IsSome, IfOk, IfErr, IsOk, OnOk, OnErr};
ghost use Rattle.std.specs.Option.{option_map};
ghost use Rattle.isis_base.specs.Identifiers.{lsp_number};
ghost use Rattle.model_router.specs.Cells.{Cell, flagged, purged};
ghost use Rattle.model_router.specs.Books.{cell_at, rank_at, is_full, set_cell, srm_at, ssn_at};
ghost use Rattle.lsp_store.specs.Maps.{find, put, erase, change_at};
ghost use Rattle.lsp_store.specs.Databases.{PutCause, with_entry, without_entry, with_change};
ghost use Rattle.flag_sync.specs.FlagRows.{cell_of, entry_cell, done};
ghost use Rattle.flag_sync.specs.Entries.{HasHeader, purged_entry};
ghost use Rattle.flag_sync.specs.Deeds.{deed_cell};
ghost use Rattle.flag_sync.specs.Known.{Knows};
ghost use Rattle.flag_sync.specs.BookStates.{book_of, HasRoom, IsCircuit, KeepsRoom, SameCircuits};

use crate::bits::has_bit;
use crate::book::Book;
use crate::deed::Deed;
use crate::flag_row::FlagRow;
use crate::headers::Purge;
use crate::known::Known;
use crate::sides::put_both;
use isis_base::LspId;
use lsp_store::{Change, Entry, StoreFault};

/// An entry has these seconds left.
#[derive(Drop)]
struct Left {
    left: u16,
}

impl Change<Entry> for Left {
    ghost changed = { λ given entry. record entry { left = given.left } };

    fn change(&self, entry: &mut Entry) {
        entry.left = self.left;
    }
}

impl Book {
    /// Stores one's own issue, and sets SRM and clears SSN on all open circuits (ISO 10589 7.3.6).
    pub fn install(&mut self, id: LspId, entry: Entry) -> Result<(), (Entry, StoreFault)>
        requires octets { 27 ≤ length entry.octets }
        ensures book { OnOk result (book_of self.new ≡ set_cell (book_of self.old) (lsp_number id)
            (Some (flagged (entry_cell entry) self.old.opened 0))) }
        ensures rest { OnOk result (SameCircuits self.old self.new) }
        ensures err { OnErr result (self.new ≡ self.old) }
        ensures back { IfErr result (λ back. back.0 ≡ entry) }
        ensures cause { IfErr result (λ back. PutCause self.old.store (lsp_number id) back.1) }
        ensures full { find self.old.store.entries (lsp_number id) ≡ None
            → 65536 ≤ length self.old.store.entries → IfOk result (λ _. ⊥) }
        ensures held { IsSome (cell_at (book_of self.old) (lsp_number id)) → IsOk result }
        ensures fits { is_full (book_of self.old) ≡ false → HasRoom self.old → IsOk result }
        ensures room { OnOk result (KeepsRoom self.old self.new) }
        ensures held_room { IsSome (cell_at (book_of self.old) (lsp_number id))
            → OnOk result (self.new.store.spare ≡ self.old.store.spare) }
    {
        let _most = self.store.len();
        let row = FlagRow::new(self.opened, 0);
        self.keep(id, entry, row)
    }

    /// The entry becomes its purge's header with 60 seconds left, with SRM set and SSN clear on
    /// all open circuits (ISO 10589 7.3.16.4).
    pub fn purge(&mut self, id: LspId)
        requires key { 0 < rank_at (book_of self.old) (lsp_number id) }
        ensures book { book_of self.new ≡ set_cell (book_of self.old) (lsp_number id)
            (option_map (λ (cell : Cell). flagged (purged cell) self.old.opened 0)
            (cell_at (book_of self.old) (lsp_number id))) }
        ensures rest { SameCircuits self.old self.new }
        ensures spare { self.new.store.spare ≡ self.old.store.spare }
        ensures room { KeepsRoom self.old self.new }
    {
        let row = FlagRow::new(self.opened, 0);
        self.store.change(id, &Purge);
        self.flags.set(id, row);
    }

    /// The entry has these seconds left.
    pub fn set_left(&mut self, id: LspId, left: u16)
        ensures book { book_of self.new ≡ set_cell (book_of self.old) (lsp_number id)
            (option_map (λ (cell : Cell). record cell { left = left })
            (cell_at (book_of self.old) (lsp_number id))) }
        ensures rest { SameCircuits self.old self.new }
        ensures spare { self.new.store.spare ≡ self.old.store.spare }
    {
        self.store.change(id, &Left { left });
    }

    /// The LSP ID's entry is gone, and its flags are clear.
    pub fn erase(&mut self, id: LspId)
        ensures book { book_of self.new ≡ set_cell (book_of self.old) (lsp_number id) None }
        ensures rest { SameCircuits self.old self.new }
        ensures spare { self.new.store.spare ≡ self.old.store.spare }
    {
        let _entry = self.store.remove(id);
        let _row = self.flags.remove(id);
    }

    /// Whether SRM stands on a circuit.
    pub fn srm(&self, circuit: u8, id: LspId) -> bool
        requires { IsCircuit circuit self.now.circuits }
        ensures { result ≡ srm_at (book_of self.now) (lsp_number id) (circuit - 1) }
    {
        match self.flags.get(id) {
            Some(row) => has_bit(row.srm, self.place(circuit)),
            None => false,
        }
    }

    /// Whether SSN stands on a circuit.
    pub fn ssn(&self, circuit: u8, id: LspId) -> bool
        requires { IsCircuit circuit self.now.circuits }
        ensures { result ≡ ssn_at (book_of self.now) (lsp_number id) (circuit - 1) }
    {
        match self.flags.get(id) {
            Some(row) => has_bit(row.ssn, self.place(circuit)),
            None => false,
        }
    }

    /// The place of a circuit in a set of them: circuit 1 has place 0.
    pub(crate) fn place(&self, circuit: u8) -> u8
        requires { IsCircuit circuit self.now.circuits }
        ensures place { result ≡ circuit - 1 }
        ensures few { result < 64 }
    {
        let _circuits = self.circuits;
        circuit - 1
    }

    /// Sets an LSP ID's entry and its row.
    pub(crate) fn keep(
        &mut self,
        id: LspId,
        entry: Entry,
        row: FlagRow,
    ) -> Result<(), (Entry, StoreFault)>
        requires headed { HasHeader entry.key entry.octets }
        ensures book { OnOk result (book_of self.new ≡ set_cell (book_of self.old) (lsp_number id)
            (Some (cell_of entry row))) }
        ensures rest { OnOk result (SameCircuits self.old self.new) }
        ensures store { OnOk result (self.new.store ≡ with_entry self.old.store id entry) }
        ensures err { OnErr result (self.new ≡ self.old) }
        ensures back { IfErr result (λ back. back.0 ≡ entry) }
        ensures cause { IfErr result (λ back. PutCause self.old.store (lsp_number id) back.1) }
        ensures full { find self.old.store.entries (lsp_number id) ≡ None
            → 65536 ≤ length self.old.store.entries → IfOk result (λ _. ⊥) }
    {
        match put_both(&mut self.store, &mut self.flags, id, entry, row) {
            Ok(()) => {}
            Err(back) => return Err(back),
        }
        Ok(())
    }

    /// Does to the flags of an LSP ID what a deed says.
    pub(crate) fn flag(&mut self, id: LspId, deed: &Deed)
        ensures book { book_of self.new ≡ set_cell (book_of self.old) (lsp_number id)
            (option_map (deed_cell deed.now) (cell_at (book_of self.old) (lsp_number id))) }
        ensures rest { SameCircuits self.old self.new }
        ensures store { self.new.store ≡ self.old.store }
    {
        self.flags.change(id, deed);
    }

    /// Makes the next look-ups begin near an LSP ID. It changes nothing.
    pub(crate) fn seek(&mut self, id: LspId)
        ensures { self.new ≡ self.old }
    {
        self.store.seek(id);
    }

    /// What is known of an LSP ID.
    pub(crate) fn known(&self, id: LspId) -> Known
        ensures { Knows result (cell_at (book_of self.now) (lsp_number id)) }
    {
        match self.store.get(id) {
            Some(entry) => Known {
                key: entry.key,
                checksum: entry.checksum,
            },
            None => Known {
                key: None,
                checksum: 0,
            },
        }
    }
}
