//! What follows for all databases: functions without a body, whose contracts are the laws.
ghost use Rattle.std.specs.Prelude.{ℕ, ◌<◌, ◌≤◌, ◌^◌, List, length};
ghost use Rattle.std.specs.List.{AllByRecursion};
ghost use Rattle.isis_base.specs.declared.identifiers.LspId.{LspId};
ghost use Rattle.lsp_store.specs.declared.entry.Entry.{Entry};
ghost use Rattle.lsp_view.specs.Views.{rows_in, IsShort};

use isis_tlv::laws::tlv_laws;

/// A database of at most 65,536 entries of at most 65,535 octets each has fewer than 4,294,967,296 rows.
pub fn rows_law()
    ensures { (entries : List (LspId × Entry)) → length entries ≤ 65536
        → AllByRecursion IsShort entries → length (rows_in entries) < 2 ^ 32 }
{
    tlv_laws();
}
