//! What a router asks of a level.
ghost use Rattle.std.specs.Prelude.{◌≡◌, ◌/◌, ◌==◌};
ghost use Rattle.isis_base.specs.Identifiers.{lsp_number};
ghost use Rattle.model_router.specs.LspTable.{met};
ghost use Rattle.model_router.specs.Takes.{whose_of};
ghost use Rattle.model_router.specs.Receiving as receiving;
ghost use Rattle.model_router.specs.Numbers.{system_number};
ghost use Rattle.flag_sync.specs.Heard.{heard_of, answer_of};
ghost use Rattle.router_levels.specs.Views.{state_of, keeps_entry};

use crate::level_parts::LevelParts;
use flag_sync::{LspAnswer, LspHeard, Whose};
use isis_base::laws::lsp_id_law;
use isis_base::{LspId, NodeId, SystemId};

impl LevelParts {
    /// Whose an LSP ID is for this system: another's, or its own, issued or not.
    pub fn whose(&self, system: SystemId, id: LspId) -> Whose
        ensures { result ≡ whose_of (system_number system) (state_of self.now) (lsp_number id) }
    {
        if !is_of(system, id) {
            return Whose::Other;
        }
        if self.own.is_issued(id) {
            return Whose::Issued;
        }
        Whose::Unissued
    }

    /// Which row of the table an LSP meets that is heard by this system (ISO 10589 7.3.15.1,
    /// 7.3.16): what `take_lsp` would answer.
    pub fn lsp_case(&self, system: SystemId, lsp: &LspHeard<'_>) -> LspAnswer
        ensures { result ≡ answer_of (met (state_of self.now).book (whose_of (system_number system)
            (state_of self.now) (lsp_number lsp.now.entry.id)) (heard_of lsp.now)) lsp.now }
    {
        self.met(system, lsp).1
    }

    /// Whose an LSP is that is heard by this system, and which row of the table it meets.
    pub(crate) fn met(&self, system: SystemId, lsp: &LspHeard<'_>) -> (Whose, LspAnswer)
        ensures whose { result.0
            ≡ whose_of (system_number system) (state_of self.now) (lsp_number lsp.now.entry.id) }
        ensures row { result.1
            ≡ answer_of (met (state_of self.now).book (whose_of (system_number system)
            (state_of self.now) (lsp_number lsp.now.entry.id)) (heard_of lsp.now)) lsp.now }
    {
        let whose = self.whose(system, lsp.entry.id);
        (whose, self.book.would_meet(lsp, whose))
    }

    /// Whether an LSP would make one entry more than 65,536.
    pub fn no_room(&self, system: SystemId, lsp: &LspHeard<'_>) -> bool
        ensures { result
            ≡ receiving.no_room (state_of self.now) (system_number system) (heard_of lsp.now) }
    {
        self.book.is_full()
            && !self.book.is_held(lsp.entry.id)
            && is_kept(self.lsp_case(system, lsp))
    }
}

/// Whether an LSP ID is of the system.
fn is_of(system: SystemId, id: LspId) -> bool
    ensures { result ≡ (lsp_number id / 65536 == system_number system) }
{
    let node = NodeId {
        system,
        pseudonode: 0,
    };
    let first = LspId { node, number: 0 };
    lsp_id_law(first);
    id.to_number() / 65_536 == first.to_number() / 65_536
}

/// Whether a row keeps what was heard.
fn is_kept(row: LspAnswer) -> bool
    ensures { result ≡ keeps_entry row }
{
    match row {
        LspAnswer::PurgedOwn => true,
        LspAnswer::Stored => true,
        LspAnswer::Same => false,
        LspAnswer::Older => false,
        LspAnswer::Confused => false,
        LspAnswer::Outbid { above: _ } => false,
        LspAnswer::AckPurge => false,
    }
}
