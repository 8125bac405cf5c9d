//! Sequence number PDUs.
ghost use Rattle.std.specs.Prelude.{◌≡◌, ℕ, ◌≤◌, length, IfOk};
ghost use Rattle.isis_base.specs.Identifiers.{lsp_number};
ghost use Rattle.model_router.specs.Configs.{Config};
ghost use Rattle.model_router.specs.Routers.{Circuit};
ghost use Rattle.model_router.specs.Datagrams as sent;
ghost use Rattle.model_datagram.specs.Datagrams.{datagram};
ghost use Rattle.flag_sync.specs.Heard.{entries_of};
ghost use Rattle.router_sending.specs.Sends.{Sends};

use crate::ids::entries_law;
use crate::laws::id_law;
use crate::pieces::put_all_entries;
use crate::sender::Sender;
use crate::writing::{begin, end};
use isis_base::{Level, LspEntry, LspId, NodeId, Octets, OutOfMemory, PduKind};
use isis_pdu::Pdu;
use model_router::laws::identifiers::system_law;
use std::alloc::Global;

/// A CSNP of a level (ISO 10589 9.10, 9.11): its range and its entries, at most 75, 15 to a TLV.
/// Its source is the system.
pub fn csnp(
    alloc: Global,
    sender: &Sender<'_>,
    level: Level,
    start: LspId,
    end_id: LspId,
    entries: &[LspEntry],
) -> Result<Octets, OutOfMemory>
    requires { length entries.now ≤ 75 }
    ensures { (config : Config) (boot place : ℕ) (c : Circuit) → Sends sender.now config boot place c
        → IfOk result (λ octets. octets ≡ datagram config boot place c
        (sent.Csnp level (lsp_number start) (lsp_number end_id) (entries_of entries.now))) }
{
    system_law(sender.system);
    id_law(start);
    id_law(end_id);
    entries_law(entries);
    let header = Pdu::Csnp {
        level,
        source: NodeId {
            system: sender.system,
            pseudonode: 0,
        },
        start,
        end: end_id,
        tlvs: &[],
    };
    let key = sender.level_key(level);
    let mut octets = begin(alloc, sender.system, sender.boot, &header, key.is_some())?;
    put_all_entries(&mut octets, entries)?;
    end(&mut octets, PduKind::Csnp(level), key);
    Ok(octets)
}

/// A PSNP of a level (ISO 10589 9.12, 9.13): its entries, at most 75, 15 to a TLV. Its source is
/// the system.
pub fn psnp(
    alloc: Global,
    sender: &Sender<'_>,
    level: Level,
    entries: &[LspEntry],
) -> Result<Octets, OutOfMemory>
    requires { length entries.now ≤ 75 }
    ensures { (config : Config) (boot place : ℕ) (c : Circuit) → Sends sender.now config boot place c
        → IfOk result (λ octets. octets
        ≡ datagram config boot place c (sent.Psnp level (entries_of entries.now))) }
{
    system_law(sender.system);
    entries_law(entries);
    let header = Pdu::Psnp {
        level,
        source: NodeId {
            system: sender.system,
            pseudonode: 0,
        },
        tlvs: &[],
    };
    let key = sender.level_key(level);
    let mut octets = begin(alloc, sender.system, sender.boot, &header, key.is_some())?;
    put_all_entries(&mut octets, entries)?;
    end(&mut octets, PduKind::Psnp(level), key);
    Ok(octets)
}
