//! The route table: for each prefix the best way, by rank and then by cost, with the next hops of all that are as good.
//!
//! The order of ranks is that of RFC 5302 3.2 (level 1 before level 2, and what came down last), with a router's own
//! prefixes before all, and the way to a system that is attached to level 2 behind all (own). An address is looked up by
//! its longest prefix (RFC 1812 5.2.4.3). Own: candidates of one rank and cost share a route, whatever their origins.
//!
//! - `rank.rt`: ranks; `candidate.rt`: what a prefix may be reached by; `route.rt`: a route
//! - `order.rt`: candidates in order; `hops.rt`: next hops of several candidates; `best.rt`: the routes made of them
//! - `table.rt`: the table; `lookup.rt`: the longest prefix of an address
//! - `patch.rt`: what some prefixes' routes become; `putting.rt`: that put in; `room.rt`: the room that tables have for it
//! - `laws.rt`: what follows for all candidates
//!
//! Choices (own):
//!
//! - Prefixes are ordered by address, then length; a look-up is a binary search for each length, the longest
//!   first.
//! - A table has room by how many it has, in steps of 64, past 4,096 of 1,024 (`room_of`); a patch takes room
//!   only past a step.
#![tactic(auto)]

mod best;
mod candidate;
mod hops;
pub mod laws;
mod lookup;
mod order;
mod patch;
mod putting;
mod rank;
mod room;
mod route;
mod table;

pub use best::{routes, routes_by};
pub use candidate::Candidate;
pub use patch::{Patch, Patches, patches_for};
pub use rank::Rank;
pub use route::Route;
pub use table::Routes;
