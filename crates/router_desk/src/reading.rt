//! A PDU as what is heard.
ghost use Rattle.std.specs.Prelude.{◌≡◌, true, map, IfOk};
ghost use Rattle.std.specs.Option.{option_map};
ghost use Rattle.std.specs.Result.{ok_prefix};
ghost use Rattle.isis_pdu.specs.Views.{pdu_view};
ghost use Rattle.model_router.specs.Numbers.{system_number};
ghost use Rattle.model_datagram.specs.Reading.{message};
ghost use Rattle.model_datagram.specs.Tests.{has_number};
ghost use Rattle.model_datagram.specs.Values as values;
ghost use Rattle.model_datagram.specs.Values.{handshake, snp_entry};
ghost use Rattle.adjacency.specs.Views as adjacency;
ghost use Rattle.router_desk.specs.Opening.{envelope_of};
ghost use Rattle.model_router.specs.Events as event;
ghost use Rattle.router_desk.specs.Heard.{hello_heard, hello_without, message_of, range_of, IsNumbered};

use crate::envelope::Envelope;
use crate::heard::{Heard, HelloHeard};
use crate::items::{areas_in, entries_in, names_own, three_way_in};
use crate::seen::Seen;
use flag_sync::LspHeard;
use isis_base::{Level, LevelSet, LspEntry, LspId, NodeId, OutOfMemory, SystemId};
use isis_pdu::Pdu;
use isis_tlv::ThreeWay;
use std::alloc::Global;

/// No LAN ID.
const NO_LAN: NodeId = NodeId {
    system: SystemId([0; 6]),
    pseudonode: 0,
};

/// What a PDU that passed the desk's tests says to the system `own`, whose SNPA is its system ID
/// (own). An LSP has a number.
pub fn hear<'a>(alloc: Global, own: SystemId, seen: &Seen<'a>) -> Result<Heard<'a>, OutOfMemory>
    requires number { has_number (pdu_view seen.now.pdu) ≡ true }
    ensures message { IfOk result (λ heard. message_of heard ≡ message (system_number own)
        (envelope_of seen.now.from) (pdu_view seen.now.pdu) seen.now.octets.now) }
    ensures numbered { IfOk result IsNumbered }
{
    let from = seen.from;
    match seen.pdu {
        Pdu::PointHello {
            circuit_type,
            source,
            holding,
            tlvs,
            ..
        } => {
            let mut hello = hello_heard(alloc, from, circuit_type, source, holding, tlvs)?;
            hello.three_way = three_way_in(tlvs);
            handshake_words(hello.three_way);
            Ok(Heard::PointHello(hello))
        }
        Pdu::LanHello {
            level,
            circuit_type,
            source,
            holding,
            priority,
            lan,
            tlvs,
        } => {
            let mut hello = hello_heard(alloc, from, circuit_type, source, holding, tlvs)?;
            hello.priority = priority;
            hello.lan = lan;
            hello.names_me = names_own(own, tlvs);
            Ok(Heard::LanHello(level, hello))
        }
        Pdu::Lsp {
            level,
            lifetime,
            id,
            number,
            checksum,
            flags,
            ..
        } => {
            let entry = LspEntry {
                lifetime,
                id,
                number,
                checksum,
            };
            let octets = seen.octets;
            let lsp = LspHeard {
                entry,
                flags,
                octets,
            };
            Ok(Heard::Lsp { level, from, lsp })
        }
        Pdu::Csnp {
            level,
            source,
            start,
            end,
            tlvs,
        } => snp(alloc, from, level, source, Some((start, end)), tlvs),
        Pdu::Psnp {
            level,
            source,
            tlvs,
        } => snp(alloc, from, level, source, None, tlvs),
    }
}

/// What every hello says: a point-to-point one without its three-way value.
fn hello_heard(
    alloc: Global,
    from: Envelope,
    levels: LevelSet,
    source: SystemId,
    holding: u16,
    tlvs: &[u8],
) -> Result<HelloHeard, OutOfMemory>
    ensures { IfOk result (λ hello. hello_heard hello
        ≡ hello_without (envelope_of from) levels source holding tlvs.now) }
{
    let areas = areas_in(alloc, tlvs)?;
    Ok(HelloHeard {
        source,
        snpa: from.snpa,
        boot: from.boot,
        levels,
        holding,
        priority: 0,
        lan: NO_LAN,
        areas,
        three_way: None,
        names_me: false,
    })
}

/// A three-way value is one handshake, in the words of adjacencies and of datagrams.
fn handshake_words(value: Option<ThreeWay>)
    ensures { adjacency.shakes_of value ≡ option_map handshake value }
{}

/// A sequence number PDU.
fn snp<'a>(
    alloc: Global,
    from: Envelope,
    level: Level,
    source: NodeId,
    range: Option<(LspId, LspId)>,
    tlvs: &[u8],
) -> Result<Heard<'a>, OutOfMemory>
    ensures message { IfOk result (λ heard. message_of heard ≡ event.SnpHeard level
        (envelope_of from) (system_number source.system) (range_of range)
        (map snp_entry (ok_prefix (values.entries_in tlvs.now)))) }
    ensures numbered { IfOk result IsNumbered }
{
    let entries = entries_in(alloc, tlvs)?;
    Ok(Heard::Snp {
        level,
        from,
        source: source.system,
        range,
        entries,
    })
}
