//! The line of an IPv4 route, as all texts of routes have it: of captured LSPs and of a router's state.
//!
//! The form of the line is this project's own; its cost is at most the greatest metric of a prefix that is considered (RFC 5305
//! 4).
//!
//! - `line.rt`: the line; `via.rt`: its next hops
#![tactic(auto)]

mod line;
mod via;

pub use line::add_route;
pub use via::add_via;
