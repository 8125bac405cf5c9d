//! A sequence number PDU is taken.
ghost use Rattle.std.specs.Prelude.{◌≡◌, ℕ, ◌-◌, ◌<◌, List, Bool, length, is_some, IsSome, IfSome, None};
ghost use Rattle.std.specs.Option.{option_copied};
ghost use Rattle.std.specs.Vec.Iter.{into_iter_items};
ghost use Rattle.isis_base.specs.declared.level.Level.{Level};
ghost use Rattle.isis_base.specs.Identifiers.{lsp_number};
ghost use Rattle.model_router.specs.Maps.{find};
ghost use Rattle.model_router.specs.Books.{cell_at, rank_at};
ghost use Rattle.model_router.specs.SnpTable.{snp_case};
ghost use Rattle.model_router.specs.Routers.{Router};
ghost use Rattle.model_router.specs.OwnLsps as model;
ghost use Rattle.model_router.specs.Takes.{Scene, whose_of, held_purge, take_entry, take_entries, take_snp};
ghost use Rattle.model_router.specs.Numbers.{system_number};
ghost use Rattle.model_datagram.specs.Lsps.{given_octets};
ghost use Rattle.flag_sync.specs.Heard.{entry_of, entries_of, outbid_of};
ghost use Rattle.flag_sync.specs.BookStates.{IsCircuit};
ghost use Rattle.router_levels.specs.Views.{state_of, HasRoom, Keeps};
ghost use Rattle.router_levels.specs.Drafts.{IsUnder, IsAnswer, IsReady, AreReady, AreAnswers, IsNext, scene_with, range_of};

use crate::level_parts::LevelParts;
use isis_base::{LspEntry, LspId, SystemId};
use router_sending::Draft;
use std::vec::IntoIter;

impl LevelParts {
    /// A sequence number PDU is taken on a circuit by this system (ISO 10589 7.3.15.2): its
    /// entries in order, then a CSNP's range; a PSNP has none. An own LSP that an entry outbids is
    /// issued at once above it under the level's key, by the entry's draft of what is wanted of
    /// it, and at the last number it is purged (7.3.16.1). Each entry whose LSP ID is issued has a
    /// draft at its place, and room is reserved for as many entries. So it takes no memory.
    pub fn take_snp(
        &mut self,
        circuit: u8,
        system: SystemId,
        range: Option<(LspId, LspId)>,
        entries: &[LspEntry],
        key: Option<&[u8]>,
        drafts: Vec<Option<Draft>>,
    )
        requires circuit { IsCircuit circuit self.old.book.circuits }
        requires room { HasRoom self.old (length entries.now) 0 }
        requires ready { AreReady (is_some (option_copied key)) self.old.own.issued entries.now
            drafts.items }
        ensures state { (leaks : Router → Level → List (ℕ × ℕ)) (attached : Router → Bool)
            (r : Router) (level : Level)
            → AreAnswers (option_copied key.entry) (scene_with leaks attached r level) entries.now
            drafts.items
            → state_of self.new ≡ take_snp (scene_with leaks attached r level) (state_of self.old)
            (system_number system) (circuit - 1) (range_of range) (entries_of entries.now) }
        ensures circuits { self.new.book.circuits ≡ self.old.book.circuits }
    {
        self.take_entries(circuit, system, entries, key, drafts);
        if let Some((start, end)) = range {
            self.book.hear_csnp_range(circuit, start, end, entries);
        }
    }

    /// Its entries, in order.
    fn take_entries(
        &mut self,
        circuit: u8,
        system: SystemId,
        entries: &[LspEntry],
        key: Option<&[u8]>,
        drafts: Vec<Option<Draft>>,
    )
        requires circuit { IsCircuit circuit self.old.book.circuits }
        requires room { HasRoom self.old (length entries.now) 0 }
        requires ready { AreReady (is_some (option_copied key)) self.old.own.issued entries.now
            drafts.items }
        ensures state { (leaks : Router → Level → List (ℕ × ℕ)) (attached : Router → Bool)
            (r : Router) (level : Level)
            → AreAnswers (option_copied key.entry) (scene_with leaks attached r level) entries.now
            drafts.items
            → state_of self.new ≡ take_entries (scene_with leaks attached r level)
            (state_of self.old) (system_number system) (circuit - 1) (entries_of entries.now) }
        ensures circuits { self.new.book.circuits ≡ self.old.book.circuits }
    {
        let mut drafts = drafts.into_iter();
        let mut left = entries;
        while let [entry, more @ ..] = left {
            let draft = next_draft(&mut drafts);
            self.take_entry(circuit, system, entry, key, draft);
            left = more;
        }
    }

    /// One entry is taken.
    fn take_entry(
        &mut self,
        circuit: u8,
        system: SystemId,
        entry: &LspEntry,
        key: Option<&[u8]>,
        draft: Option<Draft>,
    )
        requires circuit { IsCircuit circuit self.old.book.circuits }
        requires room { HasRoom self.old 1 0 }
        requires ready { IsReady (is_some (option_copied key)) self.old.own.issued entry.now draft }
        ensures state { (leaks : Router → Level → List (ℕ × ℕ)) (attached : Router → Bool)
            (r : Router) (level : Level) → IfSome draft (IsAnswer (option_copied key.entry)
            (scene_with leaks attached r level) (lsp_number entry.now.id))
            → state_of self.new ≡ take_entry (scene_with leaks attached r level)
            (state_of self.old) (system_number system) (circuit - 1) (entry_of entry.now) }
        ensures keeps { Keeps self.old self.new }
        ensures fewer { (n : ℕ) → find self.old.own.issued n ≡ None
            → find self.new.own.issued n ≡ None }
    {
        match self.hear_entry(circuit, system, entry) {
            None => {}
            Some(above) => match draft {
                Some(draft) => self.outbid_entry(above, key, draft),
                None => {}
            },
        }
    }

    /// What an entry's row does to the database, and the number above which an own LSP that is
    /// outbid is to be issued; then nothing was done.
    fn hear_entry(&mut self, circuit: u8, system: SystemId, entry: &LspEntry) -> Option<u32>
        requires circuit { IsCircuit circuit self.old.book.circuits }
        requires room { HasRoom self.old 1 0 }
        ensures row { result ≡ outbid_of (snp_case (whose_of (system_number system)
            (state_of self.old) (lsp_number entry.now.id)) (cell_at (state_of self.old).book
            (lsp_number entry.now.id)) (entry_of entry.now)) entry.now }
        ensures same { IsSome result → state_of self.new ≡ state_of self.old }
        ensures heard { result ≡ None → (scene : Scene) → state_of self.new ≡ take_entry scene
            (state_of self.old) (system_number system) (circuit - 1) (entry_of entry.now) }
        ensures keeps { Keeps self.old self.new }
        ensures own { self.new.own ≡ self.old.own }
    {
        self.book.order_law();
        let whose = self.whose(system, entry.id);
        self.book.hear_entry(circuit, entry, whose).outbid
    }

    /// An own LSP that is held is outbid at a number (ISO 10589 7.3.16.1).
    fn outbid_entry(&mut self, above: u32, key: Option<&[u8]>, draft: Draft)
        requires held { 0 < rank_at (state_of self.old).book (lsp_number draft.id) }
        requires own { IsSome (find self.old.own.issued (lsp_number draft.id)) }
        requires keyed { is_some (option_copied key) ≡ draft.keyed }
        ensures state { (leaks : Router → Level → List (ℕ × ℕ)) (attached : Router → Bool)
            (r : Router) (level : Level) → IsUnder (option_copied key.entry) r level draft
            → state_of self.new ≡ model.outbid (given_octets leaks attached) r level
            (state_of self.old) (lsp_number draft.id) above draft.contents
            (held_purge (cell_at (state_of self.old).book (lsp_number draft.id))) }
        ensures keeps { Keeps self.old self.new }
        ensures spare { self.new.book.store.spare ≡ self.old.book.store.spare }
        ensures fewer { (n : ℕ) → find self.old.own.issued n ≡ None
            → find self.new.own.issued n ≡ None }
    {
        let id = draft.id();
        match above.checked_add(1) {
            Some(number) => self.issue(draft, key, number).unwrap(),
            None => self.retire(id),
        }
    }
}

/// The next entry's draft, where there is one.
fn next_draft(drafts: &mut IntoIter<Option<Draft>>) -> Option<Draft>
    ensures { IsNext (into_iter_items drafts.old) result (into_iter_items drafts.new) }
{
    match drafts.next() {
        Some(draft) => draft,
        None => None,
    }
}
