//! The desk: what of a configuration the tests look at, and the tests.
ghost use Rattle.std.specs.Prelude.{◌≡◌, ◌+◌, ◌-◌, ◌^◌, ◌<◌, ◌≤◌, length, Some};
ghost use Rattle.std.specs.Option.{option_map};
ghost use Rattle.isis_base.specs.PduKinds.{header_length};
ghost use Rattle.isis_tlv.specs.Framed.{IsPdu};
ghost use Rattle.isis_pdu.specs.Views.{pdu_view, tlvs_of_pdu};
ghost use Rattle.isis_pdu.specs.Layout.{kind_of};
ghost use Rattle.model_datagram.specs.Tests.{has_number, is_summed};
ghost use Rattle.router_desk.specs.Table as table;
ghost use Rattle.router_desk.specs.Opening.{frame_cause, seen_at, seen_on, result_in, LiesIn};

use crate::cause::DropCause;
use crate::desk_circuit::DeskCircuit;
use crate::found::Found;
use crate::header::Header;
use crate::opened::Opened;
use crate::values::value_place;
use hmac_auth::{AuthFault, check_pdu};
use isis_base::numbers::LSP_SUMMED;
use isis_base::{CircuitKind, Level, LevelSet, Octets, PduKind, SystemId};
use isis_pdu::laws::framed_law;
use isis_pdu::{FrameFault, Pdu, decode, unwrap};
use model_router::has_level;
use std::marker::Model;

/// The most octets of an LSP or SNP that is taken (own).
const MOST: usize = 1492;

/// What never changes of a router's configuration: its system, its levels, the kinds of its
/// circuits, and the keys.
#[derive(Drop, Debug)]
pub struct Desk {
    pub(crate) system: SystemId,
    pub(crate) levels: LevelSet,
    pub(crate) area_key: Option<Octets>,
    pub(crate) domain_key: Option<Octets>,
    pub(crate) circuits: Vec<DeskCircuit>,
}

impl Model for Desk {
    ghost use Rattle.model_router.specs.Numbers.{system_number};
    ghost use Rattle.model_router.specs.Both.{runs_of};
    ghost use Rattle.router_desk.specs.Desks.{DeskView};

    ghost Value = { DeskView };

    ghost view = { λ d. record {
      system = system_number d.system;
      runs = runs_of d.levels;
      keys = record { one = d.area_key; two = d.domain_key };
      circuits = d.circuits.items;
    } };
}

impl Desk {
    /// Makes the tests of a datagram that came on a circuit, counted from 1. It takes no memory.
    pub fn open(&self, circuit: u8, datagram: Octets) -> Opened
        requires { (1 ≤ circuit) × (circuit ≤ length self.now.circuits) }
        ensures circuit { result.circuit ≡ circuit }
        ensures octets { result.octets ≡ datagram }
        ensures seen { result.seen ≡ seen_at self.now circuit datagram }
    {
        let on = &self.circuits[usize::from(circuit) - 1];
        let found = self.find(on, datagram.as_slice());
        Opened::new(circuit, datagram, found)
    }

    /// What is found in a datagram that came on a circuit.
    fn find(&self, on: &DeskCircuit, datagram: &[u8]) -> Result<Found, DropCause>
        ensures seen { result_in datagram.now result ≡ seen_on self.now on.now datagram.now }
        ensures lies { LiesIn datagram.now result }
    {
        let (sender, boot, octets) = match unwrap(datagram) {
            Ok(parts) => parts,
            Err(fault) => return Err(frame_cause(fault)),
        };
        let (pdu, end) = match decode(octets) {
            Ok(found) => found,
            Err(fault) => return Err(DropCause::Pdu(fault)),
        };
        framed_law();
        match self.first_failing(on, &pdu, &octets[..end]) {
            Some(cause) => Err(cause),
            None => {
                let header = Header::of(&pdu);
                Ok(Found {
                    sender,
                    boot,
                    header,
                    end,
                })
            }
        }
    }

    /// The cause of the first test that this PDU fails, whose octets are these.
    fn first_failing(
        &self,
        circuit: &DeskCircuit,
        pdu: &Pdu<'_>,
        octets: &[u8],
    ) -> Option<DropCause>
        requires framed { IsPdu octets.now (header_length (kind_of (pdu_view pdu.now))) }
        ensures { result ≡ table.first_failing
            (table.tests_of self.now circuit.now (pdu_view pdu.now) octets.now) }
    {
        let kind = pdu.kind();
        if !kind.is_hello() && octets.len() > MOST {
            return Some(DropCause::TooLong);
        }
        if !goes_on(circuit.kind, kind) {
            return Some(DropCause::WrongKind);
        }
        if !self.is_run(kind) {
            return Some(DropCause::WrongLevel);
        }
        if let Some(fault) = self.auth_fault(circuit, kind, octets) {
            return Some(DropCause::Auth(fault));
        }
        if let Some(place) = value_place(kind, pdu.tlvs()) {
            return Some(DropCause::Value { place });
        }
        if !has_number(pdu) {
            return Some(DropCause::ZeroNumber);
        }
        if !is_summed(pdu, octets) {
            return Some(DropCause::BadChecksum);
        }
        None
    }

    /// Whether the level of a type of PDU is run; a point-to-point hello is of no level.
    fn is_run(&self, kind: PduKind) -> bool
        ensures { result ≡ table.is_run self.now.runs kind }
    {
        match kind {
            PduKind::PointHello => true,
            PduKind::LanHello(level)
            | PduKind::Lsp(level)
            | PduKind::Csnp(level)
            | PduKind::Psnp(level) => has_level(self.levels, level),
        }
    }

    /// Why a PDU isn't authentic, where there is a key for it.
    fn auth_fault(&self, circuit: &DeskCircuit, kind: PduKind, octets: &[u8]) -> Option<AuthFault>
        requires { IsPdu octets.now (header_length kind) }
        ensures { result ≡ table.auth_fault_under
            (table.key_for self.now.keys circuit.now.key kind) octets.now (header_length kind) }
    {
        let key = match kind {
            PduKind::LanHello(_) | PduKind::PointHello => &circuit.key,
            PduKind::Lsp(Level::One) | PduKind::Csnp(Level::One) | PduKind::Psnp(Level::One) => {
                &self.area_key
            }
            PduKind::Lsp(Level::Two) | PduKind::Csnp(Level::Two) | PduKind::Psnp(Level::Two) => {
                &self.domain_key
            }
        };
        auth_fault(key, kind, octets)
    }
}

/// Why a datagram without a frame is dropped.
fn frame_cause(fault: FrameFault) -> DropCause
    ensures { result ≡ frame_cause fault }
{
    match fault {
        FrameFault::Version => DropCause::Version,
        FrameFault::Short => DropCause::Frame(FrameFault::Short),
        FrameFault::Magic => DropCause::Frame(FrameFault::Magic),
    }
}

/// Why a PDU isn't authentic under a key, where there is one.
fn auth_fault(key: &Option<Octets>, kind: PduKind, octets: &[u8]) -> Option<AuthFault>
    requires { IsPdu octets.now (header_length kind) }
    ensures { result ≡ table.auth_fault_under key.now octets.now (header_length kind) }
{
    match key {
        None => None,
        Some(key) => {
            let header = usize::from(kind.header_length());
            check_pdu(key.as_slice(), octets, header).err()
        }
    }
}

/// Whether PDUs of a type go on a kind of circuit.
fn goes_on(circuit: CircuitKind, kind: PduKind) -> bool
    ensures { result ≡ table.goes_on circuit kind }
{
    match kind {
        PduKind::LanHello(_) => matches!(circuit, CircuitKind::Lan),
        PduKind::PointHello => matches!(circuit, CircuitKind::PointToPoint),
        PduKind::Lsp(_) | PduKind::Csnp(_) | PduKind::Psnp(_) => true,
    }
}

/// Whether an LSP has a number; other PDUs need none.
fn has_number(pdu: &Pdu<'_>) -> bool
    ensures { result ≡ has_number (pdu_view pdu.now) }
{
    match *pdu {
        Pdu::Lsp { number, .. } => number != 0,
        _ => true,
    }
}

/// Whether the checksum of an LSP that is no purge is there and holds; other PDUs have none.
fn is_summed(pdu: &Pdu<'_>, octets: &[u8]) -> bool
    requires { 12 ≤ length octets.now }
    ensures { result ≡ is_summed (pdu_view pdu.now) octets.now }
{
    match *pdu {
        Pdu::Lsp {
            lifetime,
            checksum,
            ..
        } => lifetime == 0 || (checksum != 0 && iso_checksum::holds(&octets[LSP_SUMMED..])),
        _ => true,
    }
}
