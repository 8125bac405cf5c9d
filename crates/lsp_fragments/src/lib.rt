//! One's own LSPs: their split into fragments, and when a fragment is issued anew.
//!
//! ISO 10589 7.3.4 (fragments), 7.3.5, 7.3.6 and 7.3.16.1 (when, and at which sequence number).
//! Own: neighbours stand before prefixes; an entry goes into the last TLV of its code, else into a
//! new one, else into the next fragment, and never back; the five seconds between issues; what the
//! last sequence number does. What the calls answer is what the router's model (model_router) says.
//!
//! A split goes over the entries once: an entry's octets are added to the last TLV, and a TLV's to
//! its fragment. Own LSPs lie in a list by LSP ID; an issue finds its place by a binary search.
//!
//! - `content.rt`: what an LSP says; `first.rt`: what its first fragment begins with
//! - `entries.rt`: an entry's octets; `fault.rt`: why an LSP isn't split
//! - `filling.rt`: fragments while they are filled; `splitting.rt`: the split
//! - `issue.rt`: what becomes of a wanted fragment; `own_lsps.rt`: the own LSPs that are issued
//! - `kept.rt`, `by_id.rt`: one of them, and a list of them by LSP ID
//! - `laws.rt`: which split is made, and what the answers are in the router's model
//!
//! Choices (own):
//!
//! - What fits is counted in the order of the split, neighbours first; `outbid` answers by the number alone;
//!   ages stop at the end of 64 bits.
#![tactic(auto)]

mod by_id;
mod content;
mod entries;
mod fault;
mod filling;
mod first;
mod issue;
mod kept;
mod laws;
mod own_lsps;
mod splitting;

pub use content::Content;
pub use fault::SplitFault;
pub use issue::Issue;
pub use laws::{content_laws, good_splits, next_laws, own_laws};
pub use own_lsps::OwnLsps;
pub use splitting::split;
