//! The LSP IDs that a level let go.
ghost use Rattle.std.specs.Prelude.{◌≡◌, ◌≤◌, length, [], IfOk, IfSome, MatchOption, Some, None, vec_capacity};
ghost use Rattle.isis_base.specs.Identifiers.{lsp_number};
ghost use Rattle.model_router.specs.LetGos.{let_go, lets_go};
ghost use Rattle.flag_sync.specs.Walks.{numbers_of};
ghost use Rattle.purge_ageing.specs.Ids.{Rises};

use crate::ids::{place_of, put_at};
use isis_base::{LspId, OutOfMemory};
use std::alloc::Global;
use std::marker::Model;

/// The most LSP IDs that are listed (own).
const MOST: usize = 4_096;

/// The LSP IDs that a level let go since the router's start: their purge was erased, or it was
/// acknowledged without being held (own). Past 4,096 it is All, which has every LSP ID.
#[derive(Drop)]
pub struct LetGo {
    alloc: Global,
    ids: Vec<LspId>,
    all: bool,
}

impl Model for LetGo {
    ghost use Rattle.std.specs.Prelude.{vec_capacity};
    ghost use Rattle.model_router.specs.LetGos as model;

    ghost Value = { model.LetGo };

    ghost use Rattle.purge_ageing.specs.Ids.{gone_of, IsListed};

    ghost view = { λ g. gone_of g.all g.ids.items };

    ghost invariant = { λ g. IsListed g.ids.items (vec_capacity g.ids) };
}

impl LetGo {
    /// None are let go yet; it takes the room for 4,096.
    pub fn new(alloc: Global) -> Result<LetGo, OutOfMemory>
        ensures { IfOk result (λ gone. gone ≡ Some []) }
    {
        let ids = Vec::with_capacity(alloc, MOST)?;
        let all = false;
        Ok(LetGo { alloc, ids, all })
    }

    /// Adds an LSP ID. At the 4,097th different one it becomes All. It takes no memory.
    pub fn add(&mut self, id: LspId)
        ensures { self.new ≡ let_go self.old (lsp_number id) }
    {
        if self.all {
            return;
        }
        match place_of(&self.ids, id) {
            Ok(_) => {}
            Err(place) => {
                if self.ids.len() < MOST {
                    put_at(&mut self.ids, place, id);
                } else {
                    self.all = true;
                }
            }
        }
    }

    /// Whether an LSP ID is let go; in All each is.
    pub fn has(&self, id: LspId) -> bool
        ensures { result ≡ lets_go self.now (lsp_number id) }
    {
        self.all || place_of(&self.ids, id).is_ok()
    }

    /// The LSP IDs that are let go, in order; none exactly in All.
    pub fn list(&self) -> Option<&[LspId]>
        ensures { MatchOption result (self.now ≡ None)
            (λ ids. self.now ≡ Some (numbers_of ids.now)) }
    {
        if self.all {
            return None;
        }
        Some(&self.ids)
    }

    /// At most 4,096 are listed. It does nothing.
    pub fn few_law(&self)
        ensures { IfSome self.now (λ ids. length ids ≤ 4096) }
    {
        let _all = self.all;
    }

    /// An equal one, with the room for 4,096 too.
    pub fn copy(&self) -> Result<LetGo, OutOfMemory>
        ensures { IfOk result (λ copy. copy ≡ self.now) }
    {
        let mut ids = Vec::with_capacity(self.alloc, MOST)?;
        ids.extend_from_slice(&self.ids)?;
        let (alloc, all) = (self.alloc, self.all);
        Ok(LetGo { alloc, ids, all })
    }
}
