//! LSPs.
ghost use Rattle.std.specs.Prelude.{◌≡◌, ℕ, IfOk};
ghost use Rattle.model_router.specs.Configs.{Config};
ghost use Rattle.model_router.specs.Routers.{Circuit};
ghost use Rattle.model_router.specs.Datagrams as sent;
ghost use Rattle.model_datagram.specs.Datagrams.{datagram};
ghost use Rattle.flag_sync.specs.declared.flag_row.FlagRow.{FlagRow};
ghost use Rattle.flag_sync.specs.FlagRows.{cell_of};
ghost use Rattle.router_sending.specs.Held.{IsPuttable};
ghost use Rattle.router_sending.specs.Sends.{Sends};

use crate::held::put_lsp;
use crate::sender::Sender;
use crate::writing::frame;
use isis_base::{Level, Octets, OutOfMemory};
use lsp_store::Entry;
use model_router::laws::identifiers::system_law;
use std::alloc::Global;

/// What is held of an LSP as it is sent: with the seconds that are left, or as a purge (ISO 10589
/// 7.3.15.5). An entry with a key that may be sent by the definitions may be sent here
/// (`sendable_law`).
pub fn lsp(
    alloc: Global,
    sender: &Sender<'_>,
    level: Level,
    entry: &Entry,
) -> Result<Octets, OutOfMemory>
    requires { IsPuttable entry.now }
    ensures { (config : Config) (boot place : ℕ) (c : Circuit) (id : ℕ) (row : FlagRow)
        → Sends sender.now config boot place c → IfOk result (λ octets. octets
        ≡ datagram config boot place c (sent.Lsp level id (cell_of entry.now row))) }
{
    system_law(sender.system);
    let mut octets = frame(alloc, sender.system, sender.boot, &[])?;
    put_lsp(&mut octets, sender.level_key(level), entry)?;
    Ok(octets)
}
