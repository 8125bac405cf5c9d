//! The table for an LSP that is heard: which row it meets.
ghost use Rattle.std.specs.Prelude.{◌≡◌, ◌==◌, nat_lt, Some};
ghost use Rattle.isis_base.specs.Keys.{rank, entry_rank};
ghost use Rattle.model_router.specs.LspTable.{lsp_case};
ghost use Rattle.flag_sync.specs.Known.{known_cell};
ghost use Rattle.flag_sync.specs.Heard.{heard_of, answer_of};

use crate::heard::{LspAnswer, LspHeard};
use crate::known::{Known, has_live, has_purge, issued, unissued};
use model_router::{LspCase, Whose};

/// Which row of the table an LSP meets (ISO 10589 7.3.15.1, 7.3.16): the first one that applies.
#[tactic(auto, unfolding(model_router::specs::LspTable::lsp_case))]
pub(crate) fn lsp_row_of(known: &Known, lsp: &LspHeard<'_>, whose: Whose) -> LspCase
    ensures { result ≡ lsp_case whose (Some (known_cell known.now)) (heard_of lsp.now) }
{
    let key = lsp.entry.key();
    let checksum = lsp.entry.checksum;
    if issued(whose) && (known.is_older_than(key) || known.differs_from(key, checksum)) {
        return LspCase::Outbid;
    }
    if unissued(whose) && known.is_older_than(key) && has_live(key) {
        return LspCase::PurgedOwn;
    }
    if has_purge(key) && known.is_none() {
        return LspCase::AckPurge;
    }
    if known.differs_from(key, checksum) {
        return LspCase::Confused;
    }
    if known.is_older_than(key) {
        return LspCase::Stored;
    }
    if known.is(key) {
        return LspCase::Same;
    }
    LspCase::Older
}

/// The answer of a row.
pub(crate) fn lsp_answer(row: LspCase, lsp: &LspHeard<'_>) -> LspAnswer
    ensures { result ≡ answer_of row lsp.now }
{
    match row {
        LspCase::Outbid => LspAnswer::Outbid {
            above: lsp.entry.number,
        },
        LspCase::PurgedOwn => LspAnswer::PurgedOwn,
        LspCase::AckPurge => LspAnswer::AckPurge,
        LspCase::Confused => LspAnswer::Confused,
        LspCase::Stored => LspAnswer::Stored,
        LspCase::Same => LspAnswer::Same,
        LspCase::Older => LspAnswer::Older,
    }
}
