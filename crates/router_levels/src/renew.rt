//! A level's own LSPs are followed.
ghost use Rattle.std.specs.Prelude.{◌≡◌, ℕ, ◌<◌, ◌⊎◌, List, Bool, false, not, ◌||◌, length, is_some, IsSome};
ghost use Rattle.std.specs.List.{AllByRecursion};
ghost use Rattle.std.specs.Option.{option_copied};
ghost use Rattle.std.specs.Vec.Iter.{into_iter_items};
ghost use Rattle.isis_base.specs.declared.level.Level.{Level};
ghost use Rattle.isis_base.specs.Identifiers.{lsp_number};
ghost use Rattle.model_router.specs.LetGos.{contains};
ghost use Rattle.model_router.specs.Maps.{find, erase};
ghost use Rattle.model_router.specs.Sorted.{RisesFrom};
ghost use Rattle.model_router.specs.Books.{cell_at, is_full};
ghost use Rattle.model_router.specs.Routers.{Contents, Router};
ghost use Rattle.model_router.specs.OwnLsps as model;
ghost use Rattle.model_datagram.specs.Lsps.{given_octets};
ghost use Rattle.router_sending.specs.Drafts.{DraftView};
ghost use Rattle.flag_sync.specs.Walks.{numbers_of};
ghost use Rattle.purge_ageing.specs.Ids.{Rises};
ghost use Rattle.lsp_fragments.specs.declared.issue.Issue.TheVariants as issue;
ghost use Rattle.lsp_fragments.specs.Issues.{says_same, next_of};
ghost use Rattle.router_levels.specs.Views.{state_of, HasRoom, Keeps};
ghost use Rattle.router_levels.specs.Drafts.{IsUnder, AreUnder, wants_of, numbers_wanted};

use crate::level_parts::LevelParts;
use crate::wants::Wants;
use isis_base::LspId;
use lsp_fragments::{Issue, next_laws};
use purge_ageing::ids::place_of;
use router_sending::Draft;
use std::vec::IntoIter;

impl LevelParts {
    /// Own LSPs are followed (ISO 10589 7.3.6, 7.3.5): each fragment that is wanted is looked at in
    /// order, and issued under the level's key where it is due; then issued ones that aren't wanted
    /// are purged (7.3.16.4). The LSP IDs that are wanted rise, and room is reserved for as many
    /// entries and own LSPs. So it takes no memory.
    pub fn renew(&mut self, key: Option<&[u8]>, wants: Wants)
        requires keyed { AllByRecursion (λ (d : DraftView). is_some (option_copied key) ≡ d.keyed)
            wants }
        requires rises { RisesFrom 0 (wants_of wants) }
        requires room { HasRoom self.old (length wants) (length wants) }
        ensures state { (leaks : Router → Level → List (ℕ × ℕ)) (attached : Router → Bool)
            (r : Router) (level : Level) → AreUnder (option_copied key.entry) r level wants
            → state_of self.new ≡ model.renew (given_octets leaks attached) r level
            (state_of self.old) (wants_of wants) }
        ensures circuits { self.new.book.circuits ≡ self.old.book.circuits }
    {
        let Wants { ids, drafts } = wants;
        self.look_all(key, drafts.into_iter());
        self.withdraw_all(&ids);
    }

    /// Each wanted fragment is looked at, in order.
    fn look_all(&mut self, key: Option<&[u8]>, mut drafts: IntoIter<Draft>)
        requires keyed { AllByRecursion (λ (d : DraftView). is_some (option_copied key) ≡ d.keyed)
            (into_iter_items drafts) }
        requires room { HasRoom self.old (length (into_iter_items drafts))
            (length (into_iter_items drafts)) }
        ensures state { (leaks : Router → Level → List (ℕ × ℕ)) (attached : Router → Bool)
            (r : Router) (level : Level)
            → AreUnder (option_copied key.entry) r level (into_iter_items drafts)
            → state_of self.new ≡ model.look_all (given_octets leaks attached) r level
            (state_of self.old) (wants_of (into_iter_items drafts)) }
        ensures circuits { self.new.book.circuits ≡ self.old.book.circuits }
    {
        while let Some(draft) = drafts.next() {
            self.look(key, draft);
        }
    }

    /// A wanted fragment is looked at: it is issued where it is due (ISO 10589 7.3.6, 7.3.5), and
    /// purged at the last number; a full database makes a new LSP ID wait (own).
    fn look(&mut self, key: Option<&[u8]>, draft: Draft)
        requires keyed { is_some (option_copied key) ≡ draft.keyed }
        requires room { HasRoom self.old 1 1 }
        ensures state { (leaks : Router → Level → List (ℕ × ℕ)) (attached : Router → Bool)
            (r : Router) (level : Level) → IsUnder (option_copied key.entry) r level draft
            → state_of self.new ≡ model.look (given_octets leaks attached) r level
            (state_of self.old) (lsp_number draft.id, draft.contents) }
        ensures keeps { Keeps self.old self.new }
    {
        let id = draft.id();
        match self.next(&draft) {
            Issue::Wait => {}
            Issue::Exhausted => self.retire_held(id),
            Issue::Number(number) => self.issue(draft, key, number).unwrap(),
        }
    }

    /// What becomes of a wanted fragment (ISO 10589 7.3.6, 7.3.5).
    fn next(&self, draft: &Draft) -> Issue
        ensures next { next_of result ≡ model.next (is_full (state_of self.now).book)
            (find self.now.own.issued (lsp_number draft.now.id))
            (cell_at (state_of self.now).book (lsp_number draft.now.id)) draft.now.contents }
        ensures number { (n : ℕ) → result ≡ issue.Number n → 0 < n }
        ensures place { (n : ℕ) → result ≡ issue.Number n
            → (is_full (state_of self.now).book ≡ false)
            ⊎ IsSome (cell_at (state_of self.now).book (lsp_number draft.now.id)) }
    {
        next_laws();
        let id = draft.id();
        if !self.has_place(id) {
            return Issue::Wait;
        }
        let same = self.says_same(draft);
        self.own.next_issue(id, self.book.key(id), same)
    }

    /// Whether the database has an entry of the LSP ID, or a place for one.
    fn has_place(&self, id: LspId) -> bool
        ensures { result ≡ (not (is_full (state_of self.now).book)
            || is_some (cell_at (state_of self.now).book (lsp_number id))) }
    {
        !self.book.is_full() || self.book.is_held(id)
    }

    /// Whether the fragment's last issue says the same; where it isn't issued nothing does.
    fn says_same(&self, draft: &Draft) -> bool
        ensures { result ≡ says_same (find self.now.own.issued (lsp_number draft.now.id))
            draft.now.contents }
    {
        match self.own.contents(draft.id()) {
            Some((tlvs, flags)) => flags == draft.flags() && tlvs == draft.tlvs(),
            None => true,
        }
    }

    /// Issued LSPs that aren't wanted are purged, in order (ISO 10589 7.3.16.4).
    fn withdraw_all(&mut self, ids: &[LspId])
        requires { Rises 0 (numbers_of ids.now) }
        ensures state { (wants : List (ℕ × Contents)) → numbers_wanted wants ≡ numbers_of ids.now
            → state_of self.new
            ≡ model.withdraw_all (state_of self.old) wants self.old.own.issued }
        ensures circuits { self.new.book.circuits ≡ self.old.book.circuits }
    {
        let mut next = self.own.next_from(LspId::from_number(0));
        while let Some(id) = next {
            self.withdraw(ids, id);
            next = self.own.next_above(id);
        }
    }

    /// An issued LSP is purged where it isn't wanted.
    fn withdraw(&mut self, ids: &[LspId], id: LspId)
        requires { Rises 0 (numbers_of ids.now) }
        ensures state { (wants : List (ℕ × Contents)) → numbers_wanted wants ≡ numbers_of ids.now
            → state_of self.new ≡ model.withdraw_one (state_of self.old) (lsp_number id)
            (find wants (lsp_number id)) }
        ensures own { (self.new.own.issued ≡ self.old.own.issued)
            ⊎ (self.new.own.issued ≡ erase self.old.own.issued (lsp_number id)) }
        ensures rises { RisesFrom 0 self.old.own.issued }
        ensures circuits { self.new.book.circuits ≡ self.old.book.circuits }
    {
        let _first = self.own.next_from(id);
        if !is_in(ids, id) {
            self.retire_held(id);
        }
    }
}

/// Whether an LSP ID is in a list.
fn is_in(ids: &[LspId], id: LspId) -> bool
    requires { Rises 0 (numbers_of ids.now) }
    ensures { result ≡ contains (numbers_of ids.now) (lsp_number id) }
{
    place_of(ids, id).is_ok()
}
