//! A packet followed from place to place, where each place says what it does with the packet (own).
//!
//! A place hands the packet on to another place, or the packet is at home there, or it is lost there. So a packet arrives, is
//! lost, or loops for ever. Which of these happens is found by following the packet until it comes to a place where it was.
//!
//! - `step.rt`: what becomes of a packet at one place, and on its whole way
//! - `places.rt`: places that say what becomes of a packet
//! - `tracing.rt`: a packet followed to its end
//! - `ways.rt`: places at which a packet may take one of several ways; `outcomes.rt`: which ends it may have
//! - `reaching.rt`: where it may come to; `all_ways.rt`: what may become of it, whichever ways it takes
//! - `laws.rt`: what an end says of all moves: functions without a body, whose contracts are the laws
#![tactic(auto)]

mod all_ways;
pub mod laws;
mod outcomes;
mod places;
mod reaching;
mod step;
mod tracing;
mod ways;

pub use all_ways::whichever;
pub use outcomes::Outcomes;
pub use places::Places;
pub use step::{End, Step, Traced};
pub use tracing::trace;
pub use ways::Ways;
