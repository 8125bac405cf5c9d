//! HMAC over MD5, of a message in pieces.
ghost use Rattle.std.specs.Prelude.{◌≡◌, map};
ghost use Rattle.std.specs.List.{concat};
ghost use Rattle.hmac_auth.specs.Hmac.{hmac, key_block, padded};

use md5::{DIGEST_LEN, Digest, Md5};

/// The number of octets in a block of MD5.
const BLOCK: usize = 64;

/// What each octet of the key's block is exclusive-or in the inner hash (RFC 2104 2).
const INNER: u8 = 0x36;

/// What each octet of the key's block is exclusive-or in the outer hash (RFC 2104 2).
const OUTER: u8 = 0x5c;

/// HMAC-MD5 of the message under the key (RFC 2104 2). A key and a message of any length are good.
pub fn digest(key: &[u8], message: &[u8]) -> [u8; 16]
    ensures { result ≡ hmac key.now message.now }
{
    digest_of_pieces(key, &[message])
}

/// The same of a message that comes in pieces.
#[tactic(auto, unfolding(crate::specs::Hmac::hmac))]
pub(crate) fn digest_of_pieces(key: &[u8], pieces: &[&[u8]]) -> [u8; 16]
    ensures { result ≡ hmac key.now (concat (map (λ piece. piece.now) pieces.now)) }
{
    let block = key_block(key);
    let mut inner = Md5::new();
    inner.update(&padded(&block, INNER));
    for piece in pieces {
        inner.update(piece);
    }
    let mut outer = Md5::new();
    outer.update(&padded(&block, OUTER));
    outer.update(&inner.finalize());
    outer.finalize()
}

/// The key as a block: hashed if it is longer, and filled with zeros.
fn key_block(key: &[u8]) -> [u8; 64]
    ensures { result ≡ key_block key.now }
{
    let mut block = [0; BLOCK];
    if key.len() > BLOCK {
        block[..DIGEST_LEN].copy_from_slice(&Md5::digest(key));
    } else {
        block[..key.len()].copy_from_slice(key);
    }
    block
}

/// The block with each octet exclusive-or the pad.
fn padded(block: &[u8; 64], pad: u8) -> [u8; 64]
    ensures { result ≡ padded pad block.now }
{
    let mut padded = *block;
    for octet in &mut padded {
        *octet ^= pad;
    }
    padded
}
