//! Point-to-point hellos that name another boot number than their frame.
ghost use Rattle.std.specs.Prelude.{◌≡◌};
ghost use Rattle.std.specs.List.{list_any};
ghost use Rattle.isis_tlv.specs.Items.{three_way_of};
ghost use Rattle.isis_tlv.specs.Tlvs.{tlv_list};
ghost use Rattle.daemon_edge.specs.OtherBoots.{is_of_other_boot, names_other, says_other};

use isis_pdu::{Pdu, decode, unwrap};
use isis_tlv::codes::THREE_WAY;
use isis_tlv::{ThreeWay, Tlvs, three_way_value};

/// Whether a datagram is a point-to-point hello that names another boot number than its frame. A router of this project sends
/// none: its extended circuit IDs are 256 times its boot number and the circuit's number (own). A digest covers the ID, and
/// not the frame (RFC 5304).
pub fn is_of_other_boot(datagram: &[u8]) -> bool
    ensures { result ≡ is_of_other_boot datagram.now }
{
    let Ok((_, boot, pdu)) = unwrap(datagram) else {
        return false;
    };
    match decode(pdu) {
        Ok((Pdu::PointHello { tlvs, .. }, _)) => names_other(boot, tlvs),
        _ => false,
    }
}

/// Whether a hello's TLVs name another boot number.
fn names_other(boot: u32, tlvs: &[u8]) -> bool
    ensures { result ≡ list_any (names_other boot) (tlv_list 0 tlvs.now) }
{
    for tlv in Tlvs::new(tlvs, 0) {
        match tlv {
            Ok(tlv) if tlv.code == THREE_WAY && says_other(boot, tlv.value) => return true,
            Ok(_) => {}
            Err(_) => break,
        }
    }
    false
}

/// Whether a three-way value names another boot number.
fn says_other(boot: u32, value: &[u8]) -> bool
    ensures { result ≡ says_other boot (three_way_of value.now) }
{
    match three_way_value(value) {
        Ok(
            ThreeWay {
                own_id: Some(id),
                ..
            },
        ) => id / 256 != boot,
        _ => false,
    }
}
