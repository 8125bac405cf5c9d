//! HMAC-MD5, and the digest by which PDUs show that they are from one who has the key.
//!
//! The digest is that of RFC 2104; the TLV that holds it, of code 10, and what it is taken of are those of RFC 5304 2.
//! Cleartext passwords and other digests are faults. Of several TLVs of code 10 the first counts, this project's choice.
//! A purge may have no other TLV, so the originator of RFC 6232 is a fault in it. The checksum of an LSP isn't looked at
//! here, and is the caller's to fill once the LSP is signed. No call takes memory: the message is hashed in pieces.
//!
//! - `hmac.rt`: the digest of a message, whole or in pieces
//! - `message.rt`: what of a PDU the digest is taken of, and the digest that belongs in it
//! - `place.rt`: where the digest stands in a PDU
//! - `fault.rt`: why a PDU isn't authentic
//! - `check.rt`: whether a PDU is authentic; `sign.rt`: the writing of its digest
//!
//! Choices (own):
//!
//! - A digest is compared over all its octets; `sign_pdu` writes the 16 octets alone, and the checksum is
//!   filled after.
#![tactic(auto)]

mod check;
mod fault;
mod hmac;
mod message;
mod place;
mod sign;

pub use check::check_pdu;
pub use fault::AuthFault;
pub use hmac::digest;
pub use sign::sign_pdu;
