//! The tests on octets, in order.
ghost use Rattle.std.specs.Prelude.{◌≡◌, ◌+◌, ◌^◌, ◌<◌, ◌≤◌, length, Some, Err, IfOk, OnOk};
ghost use Rattle.std.specs.Result.{result_err};
ghost use Rattle.isis_base.specs.PduKinds.{kind_at, header_length};
ghost use Rattle.isis_pdu.specs.Layout.{length_at};
ghost use Rattle.isis_pdu.specs.Table.{first_failing, start_tests, kind_tests, tlv_fault};

use crate::fault::{PduFault, PduFaultKind};
use crate::fields::LEVELS;
use isis_base::PduKind;
use isis_base::fields::u16_at;
use isis_tlv::{TlvFault, Tlvs};

/// What every PDU begins with: the discriminator of IS-IS (ISO 10589 9).
pub(crate) const DISCRIMINATOR: u8 = 0x83;

/// What both version octets have.
pub(crate) const VERSION: u8 = 1;

/// The low five bits of their octet, which hold the type.
const TYPE: u8 = 0x1f;

/// The type that octets have, where what every PDU begins with is there and right.
pub(crate) fn check_start(octets: &[u8]) -> Result<PduKind, PduFault>
    ensures kind { IfOk result (λ kind. kind_at octets.now ≡ Some kind) }
    ensures eight { OnOk result (8 ≤ length octets.now) }
    ensures fault { result_err result ≡ first_failing (start_tests octets.now) }
{
    let [
        discriminator,
        _,
        version,
        id_length,
        number,
        other_version,
        _,
        areas,
        ..
    ] = octets
    else {
        return fault(PduFaultKind::Short, octets.len());
    };
    if *discriminator != DISCRIMINATOR {
        return fault(PduFaultKind::Discriminator, 0);
    }
    if *version != VERSION {
        return fault(PduFaultKind::Version, 2);
    }
    if *id_length != 0 && *id_length != 6 {
        return fault(PduFaultKind::IdLength, 3);
    }
    let Some(kind) = PduKind::of_number(*number & TYPE) else {
        return fault(PduFaultKind::PduType, 4);
    };
    if *other_version != VERSION {
        return fault(PduFaultKind::Version, 5);
    }
    if *areas != 0 && *areas != 3 {
        return fault(PduFaultKind::MaxAreas, 7);
    }
    Ok(kind)
}

/// The PDU length of octets that begin as a PDU of this type, where they are one.
pub(crate) fn check_kind(kind: PduKind, octets: &[u8]) -> Result<usize, PduFault>
    requires { 8 ≤ length octets.now }
    ensures size { IfOk result (λ n. n ≡ length_at kind octets.now) }
    ensures least { IfOk result (λ n. header_length kind ≤ n) }
    ensures most { IfOk result (λ n. n ≤ length octets.now) }
    ensures fault { result_err result ≡ first_failing (kind_tests kind octets.now) }
{
    if octets[1] != kind.header_length() {
        return fault(PduFaultKind::HeaderLength, 1);
    }
    let header = usize::from(kind.header_length());
    if octets.len() < header {
        return fault(PduFaultKind::Short, octets.len());
    }
    if kind.is_hello() && octets[8] & LEVELS == 0 {
        return fault(PduFaultKind::CircuitType, 8);
    }
    let place = kind.length_place();
    let end = usize::from(u16_at(octets, place));
    if end < header || octets.len() < end {
        return fault(PduFaultKind::PduLength, place);
    }
    match tlv_fault(&octets[header..end], header) {
        Some(place) => fault(PduFaultKind::Tlv, place),
        None => Ok(end),
    }
}

/// The answer of a test that fails.
fn fault<T>(kind: PduFaultKind, place: usize) -> Result<T, PduFault>
    ensures { result ≡ Err (record { kind = kind; place = place }) }
{
    Err(PduFault { kind, place })
}

/// The place of the code of the first faulty TLV, where the first octet is counted as `first`.
fn tlv_fault(octets: &[u8], first: usize) -> Option<usize>
    requires { first + length octets.now < 2 ^ 64 }
    ensures { result ≡ tlv_fault first octets.now }
{
    for tlv in Tlvs::new(octets, first) {
        match tlv {
            Ok(_) => {}
            Err(TlvFault::Header { place } | TlvFault::Past { place }) => return Some(place),
        }
    }
    None
}
