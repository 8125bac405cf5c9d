//! The live LSPs of a database as graph and routes need them (ISO 10589 7.2.5, 7.2.8).
//!
//! LSPs of a node count only while its number 0 is held live. A TLV whose value has a fault is unread, and octets that
//! aren't an LSP's header and TLVs say nothing (own).
//!
//! - `graph.rt`: who lists whom, and which nodes are overloaded; of all nodes and of one
//! - `systems.rt`: what one system says: prefixes, area addresses, the attached bit
//! - `lsps.rt`: what is read, a database or a node's LSPs with one as it will be; `lsp_range.rt`: the walk over it
//! - `body.rt`: what the octets of an LSP say, by the codes of TLVs; `lead.rt`: a node's number 0;
//!   `flags.rt`: its flags
//! - `laws.rt`: how many rows there are at most
//!
//! Choices (own):
//!
//! - A node's LSPs with one as it will be are read by the calls that read a database (`Lsps`), so no LSP is
//!   copied.
#![tactic(auto)]

mod body;
mod flags;
mod graph;
pub mod laws;
mod lead;
mod lsp_range;
mod lsps;
mod systems;

/// What LSPs list, for crates that read further codes.
pub mod parts {
    pub use crate::body::{Listed, add_items};
    pub use crate::lead::lead;
}

pub use graph::{overloaded, rows};
pub use lsp_range::LspRange;
pub use lsp_store::is_live;
pub use lsps::Lsps;
pub use systems::{area_list, is_attached, reach};
