//! The walk of a packet after a lab script, as a text.
//!
//! Where the routers of a network agree, following their next hops reaches a prefix at the cost that the first router's
//! route says (RFC 1195 3.10). Each router's routes are the best over its own database; whether packets arrive rests on all
//! of them. So a network is tested first, and the first thing that fails is answered: that all run level 1 alone, hold LSPs
//! of one another alone, hold the same ones, say in their own LSPs what they are, and have no metric of 0; then that one
//! router owns the prefix, and that the first one has a route (the tests, their order and the form of the text are this
//! project's own).
//!
//! - `answer.rt`: the tests in order, and the walk; `walking.rt`: the walk along the least next hops
//! - `test.rt`: the first router that fails a test; `alone.rt`, `same_view.rt`, `settled.rt`, `no_zero.rt`: the tests of one
//!   router; `strangers.rt`: LSPs of none of the routers; `owners.rt`: routes of a prefix
//! - `level_one.rt`: the database of level 1 that a router has; `nodes.rt`: nodes as numbers
//! - `forward_fault.rt`, `walked.rt`: what is answered; `alike.rt`: what routers that passed the tests have in common
//! - `write.rt`: the call that plays a script and writes a walk; `find.rt`: the walk, or why there is none; `lines.rt`: its text
//! - `reason.rt`: why there is no walk; `fault.rt`: why none was written
//!
//! `parts` has what other texts of packets are written with.
//!
//! Choices (own):
//!
//! - `Unsettled` compares lists in any order; `Zero` looks at each live LSP of the router's own node, not at
//!   pseudonodes.
//! - Views are compared with numbers, so a difference says that something is on its way; that next hops are
//!   routers is no test of its own.
#![tactic(auto)]

mod alike;
mod alone;
mod answer;
mod fault;
mod find;
mod forward_fault;
mod level_one;
mod lines;
mod no_zero;
mod nodes;
mod owners;
mod reason;
mod same_view;
mod settled;
mod strangers;
mod test;
mod walked;
mod walking;
mod write;

/// What other texts of packets are written with.
pub mod parts {
    pub use crate::lines::{add_hops, add_prefix, name_of, printed_cost};
}

pub use alike::alike_facts;
pub use answer::forward;
pub use fault::WalkFault;
pub use forward_fault::ForwardFault;
pub use reason::WalkReason;
pub use walked::Walked;
pub use write::write_walk;
