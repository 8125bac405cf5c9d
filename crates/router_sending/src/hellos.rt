//! Hellos.
ghost use Rattle.std.specs.Prelude.{◌≡◌, ℕ, ◌≤◌, [], ◌++◌, length, IfOk, OnOk};
ghost use Rattle.model_router.specs.Configs.{Config};
ghost use Rattle.model_router.specs.Routers.{Circuit};
ghost use Rattle.model_router.specs.Datagrams as sent;
ghost use Rattle.model_router.specs.Numbers.{node_number};
ghost use Rattle.model_datagram.specs.Datagrams.{datagram};
ghost use Rattle.model_datagram.specs.Tlvs.{hello_tlvs};
ghost use Rattle.router_sending.specs.Sends.{Sends, FitAreas, names_of, snpas_of};

use crate::ids::{names_law, node_law, snpas_law};
use crate::pieces::put_heard;
use crate::sender::Sender;
use crate::writing::{begin, end};
use adjacency::Neighbour;
use isis_base::{Level, NodeId, Octets, OutOfMemory, PduKind, SystemId};
use isis_pdu::Pdu;
use isis_tlv::{Adj, ThreeWay, put_addresses, put_areas, put_protocols, put_three_way};
use model_router::laws::identifiers::system_law;
use std::alloc::Global;

/// The seconds that a hello holds (own: for every system).
const HOLDING: u16 = 30;

/// The hello of a point-to-point circuit (ISO 10589 9.7): the state of the adjacency, one's own
/// extended circuit ID and, where a neighbour is kept, its system and extended circuit ID (RFC 5303
/// 3.1).
pub fn point_hello(
    alloc: Global,
    sender: &Sender<'_>,
    state: Adj,
    extended: u32,
    neighbour: Option<(SystemId, u32)>,
) -> Result<Octets, OutOfMemory>
    requires { FitAreas sender.now }
    ensures { (config : Config) (boot place : ℕ) (c : Circuit) → Sends sender.now config boot place c
        → IfOk result (λ octets. octets
        ≡ datagram config boot place c (sent.PointHello state extended (names_of neighbour))) }
{
    system_law(sender.system);
    names_law(neighbour);
    let header = Pdu::PointHello {
        circuit_type: sender.levels,
        source: sender.system,
        holding: HOLDING,
        circuit: sender.circuit,
        tlvs: &[],
    };
    let mut octets = begin(
        alloc,
        sender.system,
        sender.boot,
        &header,
        sender.key.is_some(),
    )?;
    put_common(&mut octets, sender)?;
    let three_way = ThreeWay {
        state,
        own_id: Some(extended),
        neighbour,
    };
    put_three_way(&mut octets, &three_way)?;
    end(&mut octets, PduKind::PointHello, sender.key);
    Ok(octets)
}

/// The hello of a level on a LAN (ISO 10589 9.5, 9.6): the LAN ID, and the SNPAs of the neighbours
/// that are heard, at most 200, 42 to a TLV. The priority is at most 127.
pub fn lan_hello(
    alloc: Global,
    sender: &Sender<'_>,
    level: Level,
    lan: NodeId,
    heard: &[Neighbour],
) -> Result<Octets, OutOfMemory>
    requires areas { FitAreas sender.now }
    requires priority { sender.now.priority ≤ 127 }
    requires few { length heard.now ≤ 200 }
    ensures { (config : Config) (boot place : ℕ) (c : Circuit) → Sends sender.now config boot place c
        → IfOk result (λ octets. octets
        ≡ datagram config boot place c (sent.LanHello level (node_number lan) (snpas_of heard.now))) }
{
    system_law(sender.system);
    node_law(lan);
    snpas_law(heard);
    let header = Pdu::LanHello {
        level,
        circuit_type: sender.levels,
        source: sender.system,
        holding: HOLDING,
        priority: sender.priority,
        lan,
        tlvs: &[],
    };
    let mut octets = begin(
        alloc,
        sender.system,
        sender.boot,
        &header,
        sender.key.is_some(),
    )?;
    put_common(&mut octets, sender)?;
    put_heard(&mut octets, heard)?;
    end(&mut octets, PduKind::LanHello(level), sender.key);
    Ok(octets)
}

/// Adds the TLVs that every hello begins with: area addresses, IPv4, and the circuit's address
/// where it has one (ISO 10589 9.5 to 9.7, RFC 1195 5.3).
fn put_common(out: &mut Octets, sender: &Sender<'_>) -> Result<(), OutOfMemory>
    requires { FitAreas sender.now }
    ensures { OnOk result (out.new
        ≡ out.old ++ hello_tlvs sender.now.areas.now sender.now.address []) }
{
    put_areas(out, sender.areas)?;
    put_protocols(out)?;
    if let Some(address) = sender.address {
        put_addresses(out, &[address])?;
    }
    Ok(())
}
