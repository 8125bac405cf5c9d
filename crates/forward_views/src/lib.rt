//! How packets move along next hops: what moves cost, where walks end, and what of live views and routes has it so (RFC 1195
//! 3.10).
//!
//! From a router to one of its next hops, the cost to the target falls by just the cost of the move. Each router counts over
//! the rows that may be walked from itself (ISO 10589 7.2.8), so two routers don't count over the same rows where one of them
//! is overloaded; the laws hold all the same. Where routers have the same rows and one of them owns the prefix, a walk along
//! their next hops ends at the owner, after fewer moves than there are routers, at the cost that the first one has.
//!
//! Routers that hold the same live LSPs (ISO 10589 7.3.16) have the same rows. Where each system tells its own routes, the
//! candidates of all others follow from the rows alone.
//!
//! - `laws.rt`: the laws, functions without a body whose contracts hold for whatever is given
#![tactic(auto)]

pub mod laws;
