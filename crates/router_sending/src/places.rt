//! The fields of an LSP's octets that are written in place.
ghost use Rattle.std.specs.Prelude.{◌≡◌, ◌+◌, ◌-◌, ◌≤◌, length, drop, Some, IfSome};
ghost use Rattle.std.specs.Option.{option_copied};
ghost use Rattle.hmac_auth.specs.Auth.{IsDigestPlace};
ghost use Rattle.hmac_auth.specs.Pdus.{with_piece};
ghost use Rattle.model_datagram.specs.CheckOctets.{checksum_with, with_checksum};
ghost use Rattle.router_sending.specs.Drafts.{with_digest};

use hmac_auth::sign_pdu;
use isis_base::Octets;
use isis_base::fields::u16_at;
use isis_base::numbers::{LSP_CHECKSUM, LSP_SUMMED};
use iso_checksum::fill;
use model_datagram::laws::checksum_law;

/// The place of the PDU length (ISO 10589 9.8).
pub(crate) const LENGTH: usize = 8;

/// The place of the sequence number (ISO 10589 9.8).
pub(crate) const NUMBER: usize = 20;

/// The place of the digest, which the first TLV has (RFC 5304 2).
pub(crate) const DIGEST: usize = 30;

/// Writes a piece from a place on.
pub(crate) fn write_at(octets: &mut Octets, place: usize, piece: &[u8])
    requires { place + length piece.now ≤ length octets.old }
    ensures { octets.new ≡ with_piece place piece.now octets.old }
{
    write_piece(octets.as_mut_slice(), place, piece);
}

/// The same of octets that are lent.
fn write_piece(octets: &mut [u8], place: usize, piece: &[u8])
    requires { place + length piece.now ≤ length octets.old }
    ensures { octets.new ≡ with_piece place piece.now octets.old }
{
    octets[place..place + piece.len()].copy_from_slice(piece);
}

/// Writes the digest under the key, where there is one.
pub(crate) fn sign(octets: &mut Octets, key: Option<&[u8]>)
    requires room { IfSome (option_copied key) (λ _. DIGEST + 16 ≤ length octets.old) }
    requires place { IfSome (option_copied key) (λ _. IsDigestPlace octets.old DIGEST) }
    ensures { octets.new ≡ with_digest (option_copied key.entry) octets.old }
{
    if let Some(key) = key {
        sign_pdu(key, octets.as_mut_slice(), DIGEST);
    }
}

/// Writes the checksum, and answers it.
pub(crate) fn sum(octets: &mut Octets) -> u16
    requires header { 27 ≤ length octets.old }
    requires short { length octets.old ≤ 65535 }
    requires blank { with_checksum 24 0 octets.old ≡ octets.old }
    ensures sum { result ≡ checksum_with (drop 12 octets.old) (length octets.old - 25) }
    ensures octets { octets.new ≡ with_checksum 24 result octets.old }
{
    sum_octets(octets.as_mut_slice())
}

/// The same of octets that are lent.
fn sum_octets(octets: &mut [u8]) -> u16
    requires header { 27 ≤ length octets.old }
    requires short { length octets.old ≤ 65535 }
    requires blank { with_checksum 24 0 octets.old ≡ octets.old }
    ensures sum { result ≡ checksum_with (drop 12 octets.old) (length octets.old - 25) }
    ensures octets { octets.new ≡ with_checksum 24 result octets.old }
{
    checksum_law();
    fill(&mut octets[LSP_SUMMED..], LSP_CHECKSUM - LSP_SUMMED);
    u16_at(octets, LSP_CHECKSUM)
}
