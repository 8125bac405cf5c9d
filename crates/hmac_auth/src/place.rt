//! Where a PDU's digest stands.
ghost use Rattle.std.specs.Prelude.{◌≡◌, ◌+◌, ◌≤◌, length, IfOk};
ghost use Rattle.std.specs.Option.{option_map};
ghost use Rattle.isis_tlv.specs.TlvViews.{one_view};
ghost use Rattle.hmac_auth.specs.Auth.{auth_tlv, digest_place, has_others};

use crate::fault::AuthFault;
use crate::message::DIGEST;
use isis_tlv::codes::AUTHENTICATION;
use isis_tlv::{Tlv, Tlvs};

/// The type of HMAC-MD5, which the value begins with (RFC 5304 2).
const HMAC_MD5: u8 = 54;

/// The first TLV of code 10.
fn auth_tlv(pdu: &[u8], header: usize) -> Option<Tlv<'_>>
    requires { header ≤ length pdu.now }
    ensures { option_map one_view result ≡ auth_tlv pdu.now header }
{
    let body = &pdu[header..];
    for tlv in Tlvs::new(body, header) {
        match tlv {
            Ok(tlv) if tlv.code == AUTHENTICATION => return Some(tlv),
            Ok(_) => {}
            Err(_) => break,
        }
    }
    None
}

/// Whether there is a TLV of another code.
pub(crate) fn has_others(pdu: &[u8], header: usize) -> bool
    requires { header ≤ length pdu.now }
    ensures { result ≡ has_others pdu.now header }
{
    for tlv in Tlvs::new(&pdu[header..], header) {
        match tlv {
            Ok(tlv) if tlv.code != AUTHENTICATION => return true,
            Ok(_) => {}
            Err(_) => break,
        }
    }
    false
}

/// The place of the digest: behind the code, the length and the type of the first TLV of code 10.
#[tactic(auto, unfolding(crate::specs::Auth::digest_place))]
pub(crate) fn digest_place(pdu: &[u8], header: usize) -> Result<usize, AuthFault>
    requires { header ≤ length pdu.now }
    ensures place { result ≡ digest_place pdu.now header }
    ensures behind { IfOk result (λ at. header + 3 ≤ at) }
    ensures within { IfOk result (λ at. at + DIGEST ≤ length pdu.now) }
{
    let Some(tlv) = auth_tlv(pdu, header) else {
        return Err(AuthFault::Missing);
    };
    if tlv.value.len() != 1 + DIGEST || tlv.value[0] != HMAC_MD5 {
        return Err(AuthFault::OtherType);
    }
    Ok(tlv.place + 3)
}
