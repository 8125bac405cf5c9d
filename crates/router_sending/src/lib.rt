//! What a router sends, as octets.
//!
//! LSPs as octets: one's own made ready and issued, and what is held as it is sent. ISO 10589 9.8 (the layout), 7.3.6
//! and 7.3.16.3 (an issue, with MaxAge), 7.3.11 (the checksum), 7.3.15.5 (what is held is sent with the seconds left);
//! RFC 5304 2 (the digest). All memory of an issue is taken before its sequence number is known: a draft has every
//! octet but the number, the digest and the checksum, which are then written in place (own). What the calls make is
//! what the definitions of model_datagram say.
//!
//! Datagrams as they are sent: hellos, LSPs and sequence number PDUs of a system on a circuit. ISO 10589 9.5 to 9.13
//! (the layouts), RFC 1195 5.3 and RFC 5303 3.1 (TLVs of hellos), RFC 5304 2 (the digest); the frame is this project's
//! own. A datagram is written in one list of octets: the frame and the header, then the TLVs, and at last the PDU
//! length and the digest, in place. What a call makes is what the definitions of model_datagram say, whatever router of
//! the model the sender is.
//!
//! - `draft.rt`: an own LSP without its number, and its issue
//! - `blank.rt`: its octets before the number is known; `places.rt`: the fields that are written later
//! - `held.rt`: what is held, as it is sent
//! - `lent.rt`: a key's octets, lent
//! - `laws.rt`: that what may be sent by the definitions may be put, and that an LSP ID is the one of its number: functions that do
//!   nothing, whose contracts are the laws
//! - `sender.rt`: who sends on which circuit
//! - `writing.rt`: how a datagram begins and ends
//! - `hellos.rt`, `snps.rt`, `lsps.rt`: hellos, sequence number PDUs and LSPs
//! - `pieces.rt`: the TLVs of SNPAs heard and of LSP entries
//! - `ids.rt`: identifiers are those of their numbers
#![tactic(auto)]

mod blank;
mod draft;
mod held;
mod hellos;
mod ids;
pub mod laws;
mod lent;
mod lsps;
mod pieces;
mod places;
mod sender;
mod snps;
mod writing;

pub use blank::BLANK_AUTH;
pub use draft::{Draft, Issued};
pub use held::put_lsp;
pub use hellos::{lan_hello, point_hello};
pub use lent::lent_key;
pub use lsps::lsp;
pub use sender::Sender;
pub use snps::{csnp, psnp};
