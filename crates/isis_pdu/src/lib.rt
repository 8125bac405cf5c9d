//! PDUs: reading one from octets and writing one.
//!
//! The layouts are those of ISO 10589 9, in nine types: hellos of each level on LANs and one on point-to-point links, and
//! LSPs, CSNPs and PSNPs of each level. System IDs have six octets and an area has at most three addresses: the octets
//! that say so are written as 0 and read as 0 or as that number. Reserved bits and octets are written as 0 and not read.
//! TLVs are kept as octets, which `isis_tlv` reads. Reading takes no memory.
//!
//! - `pdu.rt`: the value of a PDU; `parts.rt`: its type, its header's length and its TLVs
//! - `fault.rt`: why octets are no PDU
//! - `check.rt`: the tests on octets, in order; `fields.rt`: the fields at their offsets; `read.rt`: both together
//! - `write.rt`: the writing
//! - `frame.rt`: the datagrams that PDUs are sent in over UDP (own)
//! - `laws.rt`: what is written reads as the value, and a wrapped PDU is unwrapped as it was: functions without a body, whose contracts are the laws
//!
//! Choices (own):
//!
//! - `encode` asks nothing of the circuit type, since a set of levels is never empty; an octet past the end
//!   counts as 0 in definitions by offset.
//! - `FrameFault` is Version, Short, Magic, in this order: the first four octets are looked at before the
//!   length.
#![tactic(auto)]

mod check;
mod fault;
mod fields;
mod frame;
pub mod laws;
mod parts;
mod pdu;
mod read;
mod write;

pub use fault::{PduFault, PduFaultKind};
pub use frame::{FrameFault, unwrap, wrap};
pub use pdu::Pdu;
pub use read::decode;
pub use write::{encode, encoded_len};
