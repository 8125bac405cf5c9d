//! All ways in which at most so many deliveries of a run are lost: each is played once, and the worst is named (own).
//!
//! A run is a tree: at each delivery it goes on one way where the datagram arrives, and another way where it is lost. A schedule
//! is a list of fates, one for each delivery that comes up, as far as the last loss. All schedules may be played in parts, by
//! the place of the first loss; what the parts say gives what the whole says.
//!
//! - `player.rt`: what plays a run with given fates of its deliveries
//! - `part.rt`: a part of all schedules
//! - `tally.rt`: what is known of the schedules that were played
//! - `exploring.rt`: the call that plays them all
//! - `fault.rt`: why they weren't all played
//! - `laws.rt`: what holds of all schedules, and of their parts
#![tactic(auto)]

mod exploring;
mod fault;
pub mod laws;
mod part;
mod player;
mod tally;

pub use exploring::explore;
pub use fault::LossesFault;
pub use part::Part;
pub use player::{Played, Player, Stop};
pub use tally::{SCHEDULE_LIMIT, Tally};
