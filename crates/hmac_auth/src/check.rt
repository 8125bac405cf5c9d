//! Whether a PDU is authentic, or which fault it has.
ghost use Rattle.std.specs.Prelude.{◌≡◌, ◌+◌, ◌≤◌, ◌↔◌, length, IsTrue, IsOk, Err};
ghost use Rattle.std.specs.Result.{result_err};
ghost use Rattle.std.specs.Str.{bytes_eq};
ghost use Rattle.isis_tlv.specs.Framed.{IsPdu};
ghost use Rattle.hmac_auth.specs.Pdus.{is_lsp};
ghost use Rattle.hmac_auth.specs.Auth.{AuthCause, IsAuthentic, auth_fault, has_purge_body, has_digest};
ghost use Rattle.hmac_auth.specs.declared.fault.AuthFault.{AuthFault};

use crate::fault::AuthFault;
use crate::message::{DIGEST, digest_of_pdu, is_purge};
use crate::place::{digest_place, has_others};

/// Whether the PDU, whose header has so many octets, is authentic under the key (RFC 5304 2). Of the faults that
/// apply the first one in the order of `AuthFault` is answered.
#[tactic(auto, unfolding(crate::specs::Auth::auth_fault))]
pub fn check_pdu(key: &[u8], pdu: &[u8], header: usize) -> Result<(), AuthFault>
    requires { IsPdu pdu.now header }
    ensures ok { IsOk result ↔ IsAuthentic key.now pdu.now header }
    ensures err { (fault : AuthFault) → (result ≡ Err fault)
        ↔ AuthCause key.now pdu.now header fault }
    ensures value { result_err result ≡ auth_fault key.now pdu.now header }
{
    let at = digest_place(pdu, header)?;
    if has_purge_body(pdu, header) {
        return Err(AuthFault::PurgeBody);
    }
    if !has_digest(key, pdu, at) {
        return Err(AuthFault::Wrong);
    }
    Ok(())
}

/// Whether the PDU is a purge with a TLV of a code other than 10.
#[tactic(auto, unfolding(crate::specs::Auth::has_purge_body))]
fn has_purge_body(pdu: &[u8], header: usize) -> bool
    requires { IsPdu pdu.now header }
    ensures { result ≡ has_purge_body pdu.now header }
{
    is_purge(pdu) && has_others(pdu, header)
}

/// Whether the digest at a place is that of the PDU under the key.
#[tactic(auto, unfolding(crate::specs::Auth::has_digest))]
fn has_digest(key: &[u8], pdu: &[u8], at: usize) -> bool
    requires within { at + DIGEST ≤ length pdu.now }
    requires behind { IsTrue (is_lsp pdu.now) → 26 ≤ at }
    ensures { result ≡ has_digest key.now pdu.now at }
{
    let digest = digest_of_pdu(key, pdu, at);
    is_same(&digest, &pdu[at..at + DIGEST])
}

/// Whether two digests are the same. It looks at each octet, so its time doesn't tell how many of them agree.
fn is_same(one: &[u8; 16], other: &[u8]) -> bool
    requires { length other.now ≡ DIGEST }
    ensures { result ≡ bytes_eq one.now other.now }
{
    let mut differing = 0;
    for (a, b) in one.iter().zip(other) {
        differing |= *a ^ *b;
    }
    differing == 0
}
