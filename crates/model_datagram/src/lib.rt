//! What a router reads of a datagram, and what it sends as octets, as definitions: the model's
//! messages and what the model sends, joined to octets through the definitions of isis_pdu,
//! isis_tlv, hmac_auth and iso_checksum.
//!
//! `read` (specs/Reading.antt) is a total function of a datagram's octets, the configuration and
//! the circuit: the model's message, or the cause of the first test of octets that fails.
//! `datagram` (specs/Datagrams.antt) is what is sent as octets. The laws say that what is sent is
//! read as what it says (`said`, specs/Said.antt), and that every entry of a router may be sent.
//! The frame is this project's own; all else is ISO 10589 9, RFC 5303 and RFC 5304. A section
//! without a name is one of ISO 10589.
//!
//! - `laws.rt`: the laws, functions without a body whose contracts hold for everything that is sent
//! - `rows.rt`: PDUs that another router made, read by computation
//!
//! Choices (own):
//!
//! - A digest is taken of the spelled PDU with 16 zeros in its place; a signed purge is its header with PDU
//!   length 46 and the authentication.
//! - A point-to-point hello reads as priority 0, LAN ID 0 and naming nobody; a LAN hello as no handshake; a
//!   router's own SNPA is its system ID.
#![tactic(auto)]

pub mod laws;
pub mod rows;
