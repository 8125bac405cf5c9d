//! Loop-free alternates (RFC 5286): neighbours that a packet can be handed to when the link to a next hop, or the hop, fails.
//!
//! Which they are is said by ways alone, and found by sums of distances, as RFC 5286 3 does. Own: neighbours that are reached
//! over a LAN aren't taken, and where the hop is reached over a LAN nothing is said of that LAN (RFC 5286 3.3).
//!
//! - `alternate.rt`: what is told of one; `answer.rt`: of one target and hop
//! - `beside.rt`: the systems beside the root; `side.rt`, `sides.rt`: distances from them, which all targets share
//! - `sums.rt`: distances compared
#![tactic(auto)]

mod alternate;
mod answer;
mod beside;
mod side;
mod sides;
mod sums;

pub use alternate::Alternate;
pub use sides::{Sides, alternates};
