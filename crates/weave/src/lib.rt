//! The journals of a network's routers, woven into one schedule of the network, or told which entry
//! fits none.
//!
//! Each journal is replayed by its router first (weave_replay). Then the journals are coded as tracks
//! of letters, which are woven in rounds (weave_core). A letter is octets on a link. What some entry
//! takes has one, by the link of the entry's circuit; all other octets share a number behind those. An
//! entry is a move that needs the letter of what it takes, and sends the letters of what its reply
//! sends; between two journals of a router stands a move that needs and sends nothing, its restart.
//! What tracks by letters are, weave_model says. Where nothing is left of the tracks,
//! the turns are events of the network, one after another: it takes them, and they are the schedule.
//! Where something is left, no schedule is a weaving of all (weave_model), and the first entry that
//! no schedule reaches is told. The words are this project's own.
//!
//! - `weaving.rt`: the weaving; `schedule.rt`: schedules; `fault.rt`: why there is none
//! - `replaying.rt`: replay by copies of the routers; `rows.rt`: the links of their circuits
//! - `coding.rt`: the tracks of all routers; `entry_moves.rt`: an entry as a move; `takes.rt`: letters
//!   for what is taken
//! - `step.rt`, `plans.rt`: what each router is to do; `playing.rt`: turns as events of the network
//! - `counting.rt`: the first entry that wasn't made
//! - `laws.rt`: what follows: a function without a body of its own, whose contract is the laws
//!
//! Choices (own):
//!
//! - The network takes events only once all moves have turns; each router's moves are a plan of borrowed
//!   entries beside the tracks.
#![tactic(auto)]

mod coding;
mod counting;
mod entry_moves;
mod fault;
pub mod laws;
mod plans;
mod playing;
mod replaying;
mod rows;
mod schedule;
mod step;
mod takes;
mod weaving;

pub use fault::WeaveFault;
pub use journal_text::{JournalFault, WovenEntry, WovenEvent, WovenReply, read_journal};
pub use network_lab::{LabEvent, Network};
pub use schedule::Schedule;
pub use weave_replay::{LimitName, WovenJournal};
pub use weaving::weave;
