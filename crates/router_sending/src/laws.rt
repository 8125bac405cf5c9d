//! What holds of all LSP IDs and entries: functions that do nothing, whose contracts are the laws.
ghost use Rattle.std.specs.Prelude.{◌≡◌, ℕ, ◌<◌, List, Option};
ghost use Rattle.isis_base.specs.declared.level.Level.{Level};
ghost use Rattle.isis_base.specs.Keys.{rank};
ghost use Rattle.model_datagram.specs.LspLaws.{IsSendable};
ghost use Rattle.lsp_store.specs.declared.entry.Entry.{Entry};
ghost use Rattle.flag_sync.specs.declared.flag_row.FlagRow.{FlagRow};
ghost use Rattle.flag_sync.specs.FlagRows.{cell_of};
ghost use Rattle.isis_base.specs.Identifiers.{IsId, lsp_number};
ghost use Rattle.model_router.specs.Numbers.{lsp_id};
ghost use Rattle.router_sending.specs.Held.{IsPuttable};

use isis_base::LspId;
use isis_base::laws::lsp_id_law;

/// An entry with a key that may be sent by the definitions may be put.
pub fn sendable_law()
    ensures { (key : Option (List ℕ)) (level : Level) (id : ℕ) (entry : Entry) (row : FlagRow)
        → 0 < rank entry.key → IsSendable key level id (cell_of entry row) → IsPuttable entry }
{}

/// An LSP ID has six octets of a system, and is the one of its number.
pub fn id_law(id: LspId)
    ensures is { IsId id }
    ensures same { lsp_id (lsp_number id) ≡ id }
{
    lsp_id_law(id);
}
