//! The fields of a PDU at their offsets.
ghost use Rattle.std.specs.Prelude.{◌≡◌, ◌≤◌, length};
ghost use Rattle.isis_base.specs.declared.pdu_kind.PduKind.TheVariants as kind;
ghost use Rattle.isis_pdu.specs.Views.{pdu_view};
ghost use Rattle.isis_base.specs.PduKinds.{header_length};
ghost use Rattle.isis_pdu.specs.Layout.{circuit_levels, value_at};

use crate::pdu::Pdu;
use isis_base::fields::{lsp_at, node_at, system_at, u16_at, u32_at};
use isis_base::{Level, LevelSet, PduKind};

/// The low two bits of a circuit type, which hold the levels.
pub(crate) const LEVELS: u8 = 0x03;

/// The low seven bits of their octet, which hold a LAN hello's priority.
const PRIORITY: u8 = 0x7f;

/// The levels of a circuit type.
fn circuit_levels(octet: u8) -> LevelSet
    ensures { result ≡ circuit_levels octet }
{
    match octet & LEVELS {
        1 => LevelSet::One,
        2 => LevelSet::Two,
        _ => LevelSet::Both,
    }
}

/// The value of the fields that a PDU of this type has, each at its offset (ISO 10589 9.5 to 9.13).
pub(crate) fn value_at<'a>(kind: PduKind, octets: &[u8], tlvs: &'a [u8]) -> Pdu<'a>
    requires { header_length kind ≤ length octets.now }
    ensures { pdu_view result ≡ value_at kind octets.now tlvs.now }
{
    match kind {
        PduKind::LanHello(level) => lan_hello(level, octets, tlvs),
        PduKind::PointHello => Pdu::PointHello {
            circuit_type: circuit_levels(octets[8]),
            source: system_at(octets, 9),
            holding: u16_at(octets, 15),
            circuit: octets[19],
            tlvs,
        },
        PduKind::Lsp(level) => lsp(level, octets, tlvs),
        PduKind::Csnp(level) => Pdu::Csnp {
            level,
            source: node_at(octets, 10),
            start: lsp_at(octets, 17),
            end: lsp_at(octets, 25),
            tlvs,
        },
        PduKind::Psnp(level) => Pdu::Psnp {
            level,
            source: node_at(octets, 10),
            tlvs,
        },
    }
}

/// A LAN hello of these octets.
fn lan_hello<'a>(level: Level, octets: &[u8], tlvs: &'a [u8]) -> Pdu<'a>
    requires { 27 ≤ length octets.now }
    ensures { pdu_view result ≡ value_at (kind.LanHello level) octets.now tlvs.now }
{
    Pdu::LanHello {
        level,
        circuit_type: circuit_levels(octets[8]),
        source: system_at(octets, 9),
        holding: u16_at(octets, 15),
        priority: octets[19] & PRIORITY,
        lan: node_at(octets, 20),
        tlvs,
    }
}

/// A link state PDU of these octets.
fn lsp<'a>(level: Level, octets: &[u8], tlvs: &'a [u8]) -> Pdu<'a>
    requires { 27 ≤ length octets.now }
    ensures { pdu_view result ≡ value_at (kind.Lsp level) octets.now tlvs.now }
{
    Pdu::Lsp {
        level,
        lifetime: u16_at(octets, 10),
        id: lsp_at(octets, 12),
        number: u32_at(octets, 20),
        checksum: u16_at(octets, 24),
        flags: octets[26],
        tlvs,
    }
}
