//! One level's link state database (ISO 10589 7.3.15): LSP IDs with their entries, in order.
//!
//! An ordered map from LSP IDs lies in pages of 1 to 64 pairs (own). A look-up is two binary
//! searches, a change moves at most 64 pairs, and a walk goes over pairs that lie side by side. The
//! page that was used last is kept in mind: what lies in it or in the next one is found by one search.
//! Empty pages are kept for pairs that are still to come, so that a put for which room was
//! reserved takes no memory.
//!
//! - `store.rt`: the database; `entry.rt`, `fault.rt`, `live.rt`: its entries, faults, live ones
//! - `pages.rt`: the ordered map; `page.rt`: one page; `pairs.rt`, `range.rt`: walks
//! - `change.rt`, `noting.rt`: values changed in place, and some of them noted; `copy.rt`: equal pages
//! - `places.rt`: where a pair is; `edits.rt`: pairs put in and taken out; `rooms.rt`: empty pages
//!
//! Choices (own):
//!
//! - Neighbouring pages of at most 32 pairs together are joined when one shrinks; a map keeps in mind the page
//!   used last; values change by `Change`.
#![tactic(auto)]

mod change;
mod copy;
mod edits;
mod entry;
mod fault;
mod live;
mod noting;
mod page;
mod pages;
mod pairs;
mod places;
mod range;
mod rooms;
mod store;

pub use change::Change;
pub use copy::TryCopy;
pub use entry::Entry;
pub use fault::StoreFault;
pub use live::{Live, is_live};
pub use noting::Noting;
pub use page::Page;
pub use pages::Pages;
pub use pairs::Pairs;
pub use range::{PageRange, Range};
pub use store::Store;
