//! The configuration of a router, the desk that makes those tests of a datagram that need no state, and what a datagram
//! says that passed them.
//!
//! A datagram is taken out of its frame (this project's own) and its PDU decoded (ISO 10589 9). Then come seven tests,
//! in one fixed order, this project's own: the length of an LSP or SNP (1,492 octets), the kind of circuit that a hello
//! goes on, the level, the authentication (RFC 5304 3), the values that must be read, the sequence number of an LSP and
//! its checksum (ISO 10589 7.3.15.1, 7.3.16.1). The first that fails is the cause of a drop. Opening takes no memory,
//! and what was found isn't decoded again.
//!
//! What is heard of a datagram that passed is the message that the definitions of model_datagram read: area addresses,
//! SNPAs, three-way values and LSP entries of a PDU's TLVs (ISO 10589 9.5 to 9.13, RFC 5303 3.1). Of several three-way
//! values the first counts (own). Memory is taken for area addresses and LSP entries; an LSP's octets are lent.
//!
//! - `config.rt`, `circuit_config.rt`: a configuration; `list.rt`: its lists; `copies.rt`: copies; `valid.rt`: whether it is within the
//!   limits
//! - `cause.rt`, `naming.rt`: the causes of a drop, and their names
//! - `header.rt`, `header_of.rt`: the fields of a PDU's header; `found.rt`: what was found in a datagram
//! - `opened.rt`: a datagram with what was found in it; `seen.rt`: that, lent; `envelope.rt`: whom it is from
//! - `values.rt`: the first value that doesn't fit
//! - `desk.rt`: the desk and its tests; `making.rt`: desks made; `parts.rt`: what a desk knows; `desk_circuit.rt`: what the tests look at
//!   of a circuit
//! - `laws.rt`: what a desk finds is what a router of the model reads, and what passed the tests: functions without a body, whose contracts
//!   are the laws
//! - `heard.rt`: what is heard; `reading.rt`: a PDU as such a value
//! - `items.rt`: the items of the TLVs of a code
//! - `heard_laws.rt`: that what a desk found may be heard: a function without a body, whose contract is the law
//!
//! Choices (own):
//!
//! - A desk has copies of the keys; `valid` sorts prefixes on the stack, since it can't run out of memory; an
//!   opened PDU isn't decoded again.
//! - `DropCause::Frame(FrameFault::Version)` is a value that no call makes; a value's fault counts in the PDU,
//!   at the item's first octet.
#![tactic(auto)]

mod cause;
mod circuit_config;
mod config;
mod copies;
mod desk;
mod desk_circuit;
mod envelope;
mod found;
mod header;
mod header_of;
mod heard;
pub mod heard_laws;
mod items;
pub mod laws;
mod list;
mod making;
mod naming;
mod opened;
mod parts;
mod reading;
mod seen;
mod valid;
mod values;

pub use cause::DropCause;
pub use circuit_config::CircuitConfig;
pub use config::{Change, Config};
pub use desk::Desk;
pub use envelope::Envelope;
pub use heard::{Heard, HelloHeard};
pub use isis_base::List as ConfigList;
pub use list::{Areas, Circuits, Prefixes};
pub use model_router::DropName;
pub use opened::Opened;
pub use reading::hear;
pub use seen::Seen;
