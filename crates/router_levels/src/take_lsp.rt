//! An LSP is taken.
ghost use Rattle.std.specs.Prelude.{◌≡◌, ℕ, ◌-◌, ◌<◌, ◌≤◌, List, Bool, length, false, is_some, IsSome, IfSome, IfOk, OnOk, OnErr};
ghost use Rattle.std.specs.Option.{option_copied};
ghost use Rattle.isis_base.specs.declared.level.Level.{Level};
ghost use Rattle.isis_base.specs.Identifiers.{lsp_number};
ghost use Rattle.isis_base.specs.Keys.{entry_rank};
ghost use Rattle.model_router.specs.declared.lsp_case.LspCase.TheVariants as case;
ghost use Rattle.model_router.specs.Maps.{find};
ghost use Rattle.model_router.specs.Books.{cell_at};
ghost use Rattle.model_router.specs.LetGos.{let_go};
ghost use Rattle.model_router.specs.LspTable as table;
ghost use Rattle.model_router.specs.Routers.{Contents, Router};
ghost use Rattle.model_router.specs.OwnLsps as model;
ghost use Rattle.model_router.specs.Receiving.{no_room};
ghost use Rattle.model_router.specs.Takes.{whose_of, last_purge, take_lsp};
ghost use Rattle.model_router.specs.Numbers.{system_number};
ghost use Rattle.model_datagram.specs.Lsps.{given_octets};
ghost use Rattle.flag_sync.specs.Heard.{heard_of, answer_of};
ghost use Rattle.flag_sync.specs.BookStates.{IsCircuit};
ghost use Rattle.router_levels.specs.Views.{state_of};
ghost use Rattle.router_levels.specs.Drafts.{IsUnder, IsAnswer, scene_with};

use crate::level_parts::LevelParts;
use flag_sync::{LspAnswer, LspHeard, Whose};
use isis_base::{Order3, OutOfMemory, SystemId, newer};
use router_sending::Draft;

impl LevelParts {
    /// An LSP is taken on a circuit by this system (ISO 10589 7.3.15.1, 7.3.16): the row that it
    /// meets, `lsp_case`, is done. At `Outbid` the `answer`, a draft of what is wanted of the LSP
    /// ID, is issued at once above it under the level's key (7.3.16.1), and at the last number it
    /// is purged; at `AckPurge` the LSP ID is let go (own). At `OutOfMemory` the level is as it
    /// was. A level that has no room, `no_room`, takes no LSP.
    pub fn take_lsp(
        &mut self,
        circuit: u8,
        system: SystemId,
        lsp: &LspHeard<'_>,
        key: Option<&[u8]>,
        answer: Option<Draft>,
    ) -> Result<LspAnswer, OutOfMemory>
        requires circuit { IsCircuit circuit self.old.book.circuits }
        requires number { 0 < lsp.now.entry.number }
        requires octets { 27 ≤ length lsp.now.octets.now }
        requires room { no_room (state_of self.old) (system_number system) (heard_of lsp.now)
            ≡ false }
        requires answer { table.met (state_of self.old).book (whose_of (system_number system)
            (state_of self.old) (lsp_number lsp.now.entry.id)) (heard_of lsp.now) ≡ case.Outbid
            → IsSome answer }
        requires draft { IfSome answer (λ draft. draft.id ≡ lsp.now.entry.id) }
        requires keyed { IfSome answer (λ draft. is_some (option_copied key) ≡ draft.keyed) }
        ensures state { (leaks : Router → Level → List (ℕ × ℕ)) (attached : Router → Bool)
            (r : Router) (level : Level)
            → IfSome answer (IsAnswer (option_copied key.entry) (scene_with leaks attached r level)
            (lsp_number lsp.now.entry.id))
            → OnOk result (state_of self.new ≡ take_lsp (scene_with leaks attached r level)
            (state_of self.old) (circuit - 1) (whose_of (system_number system) (state_of self.old)
            (lsp_number lsp.now.entry.id)) (heard_of lsp.now)) }
        ensures met { IfOk result (λ row. row ≡ answer_of (table.met (state_of self.old).book
            (whose_of (system_number system) (state_of self.old) (lsp_number lsp.now.entry.id))
            (heard_of lsp.now)) lsp.now) }
        ensures circuits { self.new.book.circuits ≡ self.old.book.circuits }
        ensures err { OnErr result (self.new ≡ self.old) }
    {
        let (whose, row) = self.met(system, lsp);
        match row {
            LspAnswer::Outbid { above } => match answer {
                Some(draft) => self.outbid_by(lsp, above, key, draft)?,
                None => {}
            },
            LspAnswer::AckPurge => self.acknowledge(circuit, lsp, whose)?,
            _ => self.hear(circuit, lsp, whose)?,
        }
        Ok(row)
    }

    /// A purge is acknowledged that isn't held, and its LSP ID let go.
    fn acknowledge(
        &mut self,
        circuit: u8,
        lsp: &LspHeard<'_>,
        whose: Whose,
    ) -> Result<(), OutOfMemory>
        requires circuit { IsCircuit circuit self.old.book.circuits }
        requires number { 0 < lsp.now.entry.number }
        requires octets { 27 ≤ length lsp.now.octets.now }
        ensures state { OnOk result (state_of self.new ≡ record (state_of self.old) {
          book = table.hear_lsp (state_of self.old).book (circuit - 1) whose (heard_of lsp.now);
          gone = let_go (state_of self.old).gone (lsp_number lsp.now.entry.id);
        }) }
        ensures circuits { self.new.book.circuits ≡ self.old.book.circuits }
        ensures err { OnErr result (self.new ≡ self.old) }
    {
        self.hear(circuit, lsp, whose)?;
        self.gone.add(lsp.entry.id);
        Ok(())
    }

    /// What a row of the table does to the database.
    fn hear(&mut self, circuit: u8, lsp: &LspHeard<'_>, whose: Whose) -> Result<(), OutOfMemory>
        requires circuit { IsCircuit circuit self.old.book.circuits }
        requires number { 0 < lsp.now.entry.number }
        requires octets { 27 ≤ length lsp.now.octets.now }
        ensures state { OnOk result (state_of self.new ≡ record (state_of self.old) {
          book = table.hear_lsp (state_of self.old).book (circuit - 1) whose (heard_of lsp.now);
        }) }
        ensures circuits { self.new.book.circuits ≡ self.old.book.circuits }
        ensures err { OnErr result (self.new ≡ self.old) }
    {
        match self.book.hear_lsp(circuit, lsp, whose) {
            Ok(_) => Ok(()),
            Err(_) => Err(OutOfMemory),
        }
    }

    /// An own LSP is outbid by an LSP of this number (ISO 10589 7.3.16.1).
    fn outbid_by(
        &mut self,
        lsp: &LspHeard<'_>,
        above: u32,
        key: Option<&[u8]>,
        draft: Draft,
    ) -> Result<(), OutOfMemory>
        requires number { 0 < lsp.now.entry.number }
        requires octets { 27 ≤ length lsp.now.octets.now }
        requires own { IsSome (find self.old.own.issued (lsp_number lsp.now.entry.id)) }
        requires draft { draft.id ≡ lsp.now.entry.id }
        requires keyed { is_some (option_copied key) ≡ draft.keyed }
        ensures state { (leaks : Router → Level → List (ℕ × ℕ)) (attached : Router → Bool)
            (r : Router) (level : Level) → IsUnder (option_copied key.entry) r level draft
            → OnOk result (state_of self.new ≡ model.outbid (given_octets leaks attached) r level
            (state_of self.old) (lsp_number lsp.now.entry.id) above draft.contents
            (last_purge (cell_at (state_of self.old).book (lsp_number lsp.now.entry.id))
            (heard_of lsp.now))) }
        ensures circuits { self.new.book.circuits ≡ self.old.book.circuits }
        ensures err { OnErr result (self.new ≡ self.old) }
    {
        match above.checked_add(1) {
            Some(number) => self.issue(draft, key, number),
            None => self.retire_heard(lsp),
        }
    }

    /// An own LSP is purged at the last number: with the header of what is heard where that is
    /// newer, else of what is held (ISO 10589 7.3.16.1, 7.3.16.4; the header: own).
    fn retire_heard(&mut self, lsp: &LspHeard<'_>) -> Result<(), OutOfMemory>
        requires number { 0 < lsp.now.entry.number }
        requires octets { 27 ≤ length lsp.now.octets.now }
        ensures state { OnOk result (state_of self.new ≡ model.retire (state_of self.old)
            (lsp_number lsp.now.entry.id) (last_purge
            (cell_at (state_of self.old).book (lsp_number lsp.now.entry.id)) (heard_of lsp.now))) }
        ensures circuits { self.new.book.circuits ≡ self.old.book.circuits }
        ensures err { OnErr result (self.new ≡ self.old) }
    {
        let id = lsp.entry.id;
        match newer(self.book.key(id), lsp.entry.key()) {
            Order3::Older => {
                match self.book.keep_purge(lsp) {
                    Ok(()) => {}
                    Err(_) => return Err(OutOfMemory),
                }
                self.own.drop_id(id);
                Ok(())
            }
            Order3::Same => {
                self.retire(id);
                Ok(())
            }
            Order3::Newer => {
                self.retire(id);
                Ok(())
            }
        }
    }
}
