//! What a report tells of links, of LANs and of own LSP IDs. The words are this project's own.
//!
//! How the two ends of a link stand to each other, and which routers a chain of joined links leads to.
//!
//! Which ranges of LSP IDs routers took of CSNPs, and whether those that were taken at the same keys cover all LSP IDs.
//! ISO 10589 7.3.15.2: on a LAN the designated system tells in CSNPs what it holds. A router that took all of a set
//! cleanly, while its own keys and the sender's stood still, holds the same. So each range is kept beside the boots and
//! the counts of changed keys at which it was sent and taken. What was taken at a moment that is past stays in the map:
//! less than the datagrams themselves, which a network keeps.
//!
//! What routers held of their own LSP IDs in a run, and which are doubled: held live by their own router at one number
//! with two contents, the flags octet and the TLVs (ISO 10589 9.8). The contents seen first of each LSP ID and number
//! are kept.
//!
//! - `state.rt`: the state of a link at a level; `counts.rt`: what is counted at its ends; `cells.rt`: the walk over a book's entries with
//!   their flags
//! - `joined.rt`: the groups of routers that joined pairs connect; `parents.rt`: classes of routers that are merged, as a forest;
//!   `groups.rt`: lists of groups
//! - `key.rt`: at which moment a range was taken; `sweeps.rt`: the ranges by these
//! - `laws.rt`: that all LSP IDs are covered exactly where it is told so: a function without a body, whose contract is the law
//! - `histories.rt`: what the routers of a network held, on both levels; `levels_to_see.rt`: which of them are looked at
//! - `history.rt`: the history of a level; `said.rt`: contents that are kept; `look.rt`: how contents compare with the first ones
//!
//! Choices (own):
//!
//! - Groups are made by merging labels, pair by pair; `AreGroups` says what they mean.
#![tactic(auto)]

mod cells;
mod counts;
mod groups;
mod histories;
mod history;
mod joined;
mod key;
pub mod laws;
mod levels_to_see;
mod look;
mod parents;
mod said;
mod state;
mod sweeps;

pub use groups::Groups;
pub use histories::Histories;
pub use history::History;
pub use joined::joined_groups;
pub use key::SweepKey;
pub use levels_to_see::LevelsToSee;
pub use state::{LinkState, link_state};
pub use sweeps::Sweeps;
