//! The lines of LSP IDs that are doubled.
ghost use Rattle.std.specs.Prelude.{◌≡◌, ◌++◌, OnOk};
ghost use Rattle.std.specs.List.{flat_map};
ghost use Rattle.isis_base.specs.Identifiers.{lsp_number};
ghost use Rattle.flag_sync.specs.Walks.{numbers_of};
ghost use Rattle.lab_report.specs.Reports as lines;

use crate::router_lines::level_word;
use isis_base::{Level, LspId, Octets, OutOfMemory, add_lsp_id};
use network_lab::Network;
use router_sending::laws::id_law;

/// A line for each LSP ID of a level that is doubled.
pub(crate) fn add_doubled(page: &mut Octets, net: &Network, level: Level) -> Result<(), OutOfMemory>
    ensures { OnOk result (page.new ≡ page.old ++ lines.doubled_lines net.now.seen level) }
{
    add_doubled_ids(page, level, net.doubled(level))
}

/// A line for each of these LSP IDs.
fn add_doubled_ids(page: &mut Octets, level: Level, ids: &[LspId]) -> Result<(), OutOfMemory>
    ensures { OnOk result (page.new
        ≡ page.old ++ flat_map (lines.doubled_line level) (numbers_of ids.now)) }
{
    for id in ids {
        match add_doubled_id(page, level, *id) {
            Ok(()) => {}
            Err(error) => return Err(error),
        }
    }
    Ok(())
}

/// `doubled LEVEL LSPID`.
#[tactic(auto, unfolding(crate::specs::Reports::doubled_line))]
fn add_doubled_id(page: &mut Octets, level: Level, id: LspId) -> Result<(), OutOfMemory>
    ensures { OnOk result (page.new ≡ page.old ++ lines.doubled_line level (lsp_number id)) }
{
    id_law(id);
    page.extend(b"doubled ")?;
    page.extend(level_word(level))?;
    add_lsp_id(page, b" ", id)?;
    page.extend(b"\n")
}
