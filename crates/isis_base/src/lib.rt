//! Identifiers, keys and their texts: what every layer above speaks of.
//!
//! Octet counts and layouts are those of ISO 10589 9; the order of keys is that of ISO 10589 7.3.16.
//! Texts are the usual ones of the field, with lower-case hex digits; upper case is read too.
//! Only the calls of `List` and `Octets` that grow or copy a list take memory, and so do the writers, which put texts behind one.
//!
//! - `list.rt`, `octets.rt`: growing lists, of any items and of octets; `memory.rt`: the error for want of memory
//! - `numbers.rt`: numbers of the protocol and limits that several crates go by
//! - `identifiers.rt`: system ID, SNPA, node ID, LSP ID; `lsp_number.rt`: an LSP ID as a number
//! - `level.rt`: levels, sets of levels, kinds of circuits
//! - `key.rt`: a key; `order.rt`: which key is newer, and the newer of two
//! - `pdu_kind.rt`: the types of PDUs, with their numbers and the lengths of their headers
//! - `entry.rt`: what a sequence number PDU says of an LSP
//! - `area.rt`, `prefix.rt`: area addresses and IPv4 prefixes; `prefix_number.rt`: a prefix as a number
//! - `parts.rt`: texts made of octets in hex and marks; `texts.rt`: system and LSP IDs read from theirs
//! - `area_text.rt`, `prefix_text.rt`, `level_text.rt`: areas, prefixes and sets of levels read from their texts
//! - `display.rt`: the texts written through a formatter; `writers.rt`: the texts, and numbers, put behind octets, whose hex
//!   digits `digits.rt` has
//! - `fields.rt`: numbers and identifiers at a place of octets, what stands behind an LSP's header; `draft.rt`: up to 255 octets while they are written
//! - `laws.rt`: what is written is read as the value, a text has one value, IDs are ordered by their octets, the newer of
//!   two keys depends on no order: functions without a body, whose contracts are the laws
//!
//! Choices (own):
//!
//! - A TLV is written on the stack first (`Draft`), then appended; where the second step runs out of memory the
//!   first is taken back.
//! - The types of PDUs are one table; identifiers are written from arrays of digits, not by Display, since that
//!   took about 30 % fewer instructions.
#![tactic(auto)]

mod area;
mod area_text;
mod digits;
mod display;
mod draft;
mod entry;
pub mod fields;
mod identifiers;
mod key;
pub mod laws;
mod level;
mod level_text;
mod list;
mod lsp_number;
mod memory;
pub mod numbers;
mod octets;
mod order;
mod parts;
mod pdu_kind;
mod prefix;
mod prefix_number;
mod prefix_text;
mod texts;
mod writers;

pub use area::AreaAddress;
pub use area_text::read_area;
pub use draft::Draft;
pub use entry::LspEntry;
pub use identifiers::{LspId, NodeId, Snpa, SystemId};
pub use key::Key;
pub use level::{CircuitKind, Level, LevelSet};
pub use level_text::read_levels;
pub use list::List;
pub use memory::OutOfMemory;
pub use octets::Octets;
pub use order::{Order3, join, newer};
pub use pdu_kind::PduKind;
pub use prefix::Prefix;
pub use prefix_text::read_prefix;
pub use texts::{TextFault, read_lsp_id, read_system};
pub use writers::{add_hex, add_levels, add_lsp_id, add_node_id, add_number, add_system_id};
