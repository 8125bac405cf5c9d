//! A PDU signed.
ghost use Rattle.std.specs.Prelude.{◌≡◌, ℕ, ◌+◌, ◌≤◌, length, Some, None, if◌then◌else◌};
ghost use Rattle.hmac_auth.specs.Hmac.{hmac};
ghost use Rattle.isis_tlv.specs.Framed.{IsPdu};
ghost use Rattle.hmac_auth.specs.Pdus.{with_piece, blanked};
ghost use Rattle.hmac_auth.specs.Auth.{IsDigestPlace, HasDigest, auth_fault, has_purge_body};
ghost use Rattle.hmac_auth.specs.declared.fault.AuthFault.TheVariants.{PurgeBody};

use crate::message::{DIGEST, digest_of_pdu};

/// Writes the digest of the PDU under the key from place `at` on, where its first TLV of code 10 holds it
/// (RFC 5304 2). What stood there isn't looked at, and no other octet is written.
pub fn sign_pdu(key: &[u8], pdu: &mut [u8], at: usize)
    requires room { at + 16 ≤ length pdu.old }
    requires place { IsDigestPlace pdu.old at }
    ensures written { pdu.new ≡ with_piece at (hmac key.now (blanked pdu.old at)) pdu.old }
    ensures digest { HasDigest key.now pdu.new at }
    ensures still { (header : ℕ) → IsPdu pdu.old header → IsPdu pdu.new header }

    // `check_pdu` answers `PurgeBody` where it did for a purge's body before, and nothing else.
    ensures passes { (header : ℕ) → IsPdu pdu.old header → auth_fault key.now pdu.new header
        ≡ (if has_purge_body pdu.old header then Some PurgeBody else None) }
{
    let digest = digest_of_pdu(key, pdu, at);
    pdu[at..at + DIGEST].copy_from_slice(&digest);
}
