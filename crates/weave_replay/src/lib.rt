//! The journals of a network's routers, replayed by these routers.
//!
//! A router has a journal for each of its boots. Each is replayed from the router's opening state
//! in that boot, with its configuration as the journals before left it, entry by entry, by the
//! router's `step` (router_core). An entry has a fault where its circuit isn't there or its value is
//! out of `step`'s condition, and where the router answers otherwise. The first fault is told, by
//! journal and entry; then a limit that is passed. What is a fault, and a replay, weave_model says.
//! The words are this project's own.
//!
//! A router has 16,777,215 boots. A journal behind the last has none to be replayed in: of its
//! entries nothing is said, and the limit is told.
//!
//! - `replaying.rt`: all journals, in order; `journal.rt`, `fault.rt`: a journal, and what is told
//! - `entries.rt`: the entries of one journal; `fitting.rt`: whether an entry's event may be handed
//!   over, and the event; `replies.rt`: whether a reply is what an entry says
//! - `sending.rt`: whether the replies send too many datagrams
//! - `laws.rt`: what follows: functions without a body, whose contracts are the laws
//!
//! Choices (own):
//!
//! - A journal after a router's 16,777,215th isn't replayed, and the limit is answered.
#![tactic(auto)]

mod entries;
mod fault;
mod fitting;
mod journal;
pub mod laws;
mod replaying;
mod replies;
mod sending;

pub use entries::{Outcome, replay_entry};
pub use fault::ReplayFault;
pub use journal::WovenJournal;
pub use journal_text::{WovenEntry, WovenEvent, WovenReply};
pub use lab_keys::LimitName;
pub use replaying::replay_journals;
pub use router_core::Datagrams;
