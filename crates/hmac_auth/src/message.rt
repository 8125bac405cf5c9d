//! The message that a PDU's digest is taken of.
ghost use Rattle.std.specs.Prelude.{◌≡◌, ◌+◌, ◌<◌, ◌≤◌, length, IsTrue};
ghost use Rattle.hmac_auth.specs.Hmac.{hmac};
ghost use Rattle.hmac_auth.specs.Pdus.{is_lsp, is_purge, blanked};

use crate::hmac::digest_of_pieces;
use isis_base::fields::u16_at;
use isis_base::numbers::{LSP_CHECKSUM, LSP_LIFETIME};

/// The number of octets of a digest.
pub(crate) const DIGEST: usize = 16;

/// The type of a level 1 LSP (ISO 10589 9).
const L1_LSP: u8 = 18;

/// The type of a level 2 LSP (ISO 10589 9).
const L2_LSP: u8 = 20;

/// What the message has in the place of a digest.
const NO_DIGEST: [u8; DIGEST] = [0; DIGEST];

/// What the message has in the place of a remaining lifetime.
const NO_LIFETIME: [u8; 2] = [0; 2];

/// What the message has in the place of a checksum.
const NO_CHECKSUM: [u8; 2] = [0; 2];

/// Whether this is an LSP: its type is the low five bits of the octet at 4.
fn is_lsp(pdu: &[u8]) -> bool
    requires { 4 < length pdu.now }
    ensures { result ≡ is_lsp pdu.now }
{
    matches!(pdu[4] % 32, L1_LSP | L2_LSP)
}

/// Whether this is a purge: an LSP whose remaining lifetime is 0.
pub(crate) fn is_purge(pdu: &[u8]) -> bool
    requires { 16 < length pdu.now }
    ensures { result ≡ is_purge pdu.now }
{
    is_lsp(pdu) && u16_at(pdu, LSP_LIFETIME) == 0
}

/// The digest under the key that belongs at a place of the PDU.
pub(crate) fn digest_of_pdu(key: &[u8], pdu: &[u8], at: usize) -> [u8; 16]
    requires within { at + DIGEST ≤ length pdu.now }
    requires behind { IsTrue (is_lsp pdu.now) → 26 ≤ at }
    ensures { result ≡ hmac key.now (blanked pdu.now at) }
{
    let rest = &pdu[at + DIGEST..];
    if !is_lsp(pdu) {
        return digest_of_pieces(key, &[&pdu[..at], &NO_DIGEST, rest]);
    }
    let pieces = [
        &pdu[..LSP_LIFETIME],
        &NO_LIFETIME,
        &pdu[LSP_LIFETIME + 2..LSP_CHECKSUM],
        &NO_CHECKSUM,
        &pdu[LSP_CHECKSUM + 2..at],
        &NO_DIGEST,
        rest,
    ];
    digest_of_pieces(key, &pieces)
}
