//! What a router of two levels says of one level in the other, and whether it is attached to other areas.
//!
//! Level 1 is told in level 2; level 2 is told in level 1 with the up/down bit, which keeps it from going up again
//! (RFC 5302 3). Attached is a router that reaches a system of another area (ISO 10589 7.2.9.2). A leaked metric is at
//! most that of a prefix (RFC 5305 4).
//!
//! - `leaks.rt`: the prefixes of a table of routes that are leaked; `attachment.rt`: the attached bit
//! - `laws.rt`: what is leaked never comes of what came down
#![tactic(auto)]

mod attachment;
pub mod laws;
mod leaks;

pub use attachment::attached;
pub use leaks::{down_into_l1, up_into_l2};
