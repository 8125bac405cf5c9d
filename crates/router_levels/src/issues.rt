//! Own LSPs of a level: issued, and purged.
ghost use Rattle.std.specs.Prelude.{◌≡◌, ℕ, ◌<◌, ◌⊎◌, List, Bool, false, is_some, IsSome, IsOk, OnOk, OnErr};
ghost use Rattle.std.specs.Option.{option_copied};
ghost use Rattle.isis_base.specs.declared.level.Level.{Level};
ghost use Rattle.isis_base.specs.Identifiers.{lsp_number};
ghost use Rattle.model_router.specs.Maps.{find, put, erase};
ghost use Rattle.model_router.specs.Books.{cell_at, rank_at, is_full};
ghost use Rattle.model_router.specs.Routers.{Router};
ghost use Rattle.model_router.specs.Takes.{held_purge};
ghost use Rattle.model_router.specs.OwnLsps as model;
ghost use Rattle.model_datagram.specs.Lsps.{given_octets};
ghost use Rattle.flag_sync.specs.BookStates.{HasRoom};
ghost use Rattle.router_levels.specs.Views.{state_of, Keeps};
ghost use Rattle.router_levels.specs.Drafts.{IsUnder};

use crate::level_parts::LevelParts;
use isis_base::{LspId, OutOfMemory};
use router_sending::{Draft, Issued};

impl LevelParts {
    /// An own LSP is issued at a number, with SRM set and SSN clear on all open circuits (ISO 10589
    /// 7.3.12). Where an entry of the LSP ID is held, or there is room for one, it can't fail. At
    /// `OutOfMemory` the level is as it was.
    pub(crate) fn issue(
        &mut self,
        draft: Draft,
        key: Option<&[u8]>,
        number: u32,
    ) -> Result<(), OutOfMemory>
        requires some { 0 < number }
        requires keyed { is_some (option_copied key) ≡ draft.keyed }
        requires own { IsSome (find self.old.own.issued (lsp_number draft.id))
            ⊎ (0 < self.old.own.spare) }
        ensures state { (leaks : Router → Level → List (ℕ × ℕ)) (attached : Router → Bool)
            (r : Router) (level : Level) → IsUnder (option_copied key.entry) r level draft
            → OnOk result (state_of self.new ≡ model.install (state_of self.old)
            (lsp_number draft.id) draft.contents (model.issue_cell (given_octets leaks attached) r
            level (lsp_number draft.id) number draft.contents)) }
        ensures keeps { OnOk result (Keeps self.old self.new) }
        ensures own { OnOk result (self.new.own.issued ≡ put self.old.own.issued
            (lsp_number draft.id) (record { contents = draft.contents; age = 0 })) }
        ensures held_room { IsSome (cell_at (state_of self.old).book (lsp_number draft.id))
            → OnOk result (self.new.book.store.spare ≡ self.old.book.store.spare) }
        ensures err { OnErr result (self.new ≡ self.old) }
        ensures held { IsSome (cell_at (state_of self.old).book (lsp_number draft.id))
            → IsOk result }
        ensures fits { is_full (state_of self.old).book ≡ false → HasRoom self.old.book
            → IsOk result }
    {
        let (id, flags) = (draft.id(), draft.flags());
        let Issued { entry, tlvs } = draft.issue(key, number);
        match self.book.install(id, entry) {
            Ok(()) => {}
            Err(_) => return Err(OutOfMemory),
        }
        self.own.issued(id, tlvs, flags).unwrap();
        Ok(())
    }

    /// What is held of an own LSP is purged, and it isn't issued any longer (ISO 10589 7.3.16.1).
    pub(crate) fn retire(&mut self, id: LspId)
        requires { 0 < rank_at (state_of self.old).book (lsp_number id) }
        ensures state { state_of self.new ≡ model.retire (state_of self.old) (lsp_number id)
            (held_purge (cell_at (state_of self.old).book (lsp_number id))) }
        ensures keeps { Keeps self.old self.new }
        ensures spare { self.new.book.store.spare ≡ self.old.book.store.spare }
        ensures own { self.new.own.issued ≡ erase self.old.own.issued (lsp_number id) }
    {
        self.book.purge(id);
        self.own.drop_id(id);
    }

    /// What is held live of an own LSP is purged, and a purge is left as it is; either then isn't
    /// issued any longer (ISO 10589 7.3.16.4).
    pub(crate) fn retire_held(&mut self, id: LspId)
        ensures state { state_of self.new ≡ model.retire_held (state_of self.old) (lsp_number id)
            (cell_at (state_of self.old).book (lsp_number id)) }
        ensures keeps { Keeps self.old self.new }
        ensures own { self.new.own.issued ≡ erase self.old.own.issued (lsp_number id) }
    {
        match self.book.key(id) {
            Some(key) => {
                if key.purged {
                    self.own.drop_id(id);
                } else {
                    self.retire(id);
                }
            }
            None => self.own.drop_id(id),
        }
    }
}
