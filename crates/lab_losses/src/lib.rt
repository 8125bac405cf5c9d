//! Lost deliveries in the last line of a lab script (own).
//!
//! The network before that line is made anew for each schedule: the script's other lines are played again.
//!
//! - `replay.rt`: a network of network_lab as lossy_runs uses it
//! - `finding.rt`: the call that finds the worst
//! - `groups.rt`: whether its groups are those at the end of the line where nothing is lost
//! - `write.rt`: the call that writes what is found; `reason.rt`: why there is nothing to tell; `fault.rt`: why nothing was written
#![tactic(auto)]

mod fault;
mod finding;
mod groups;
mod reason;
mod replay;
mod write;

pub use fault::WriteFault;
pub use finding::{Found, find_losses};
pub use groups::SameGroups;
pub use reason::LossesReason;
pub use replay::Replay;
pub use write::{RunAsked, write_losses};
