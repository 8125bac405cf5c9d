//! Distances that are repaired when rows change, in place of being made from scratch (own; what they are is ISO 10589 C.2).
//!
//! A change takes rows out and puts rows in. Costs that may have come over a removed row are given up, and their nodes
//! settled anew from those that are left; an added row offers what it gives. Only what changes is settled; where all rows
//! are looked at, their ends are told by places. Steps are counted: where no row was removed but for a cheaper one, they
//! are few for the rows listed and the costs changed.
//!
//! - `repaired.rt`: the distances that are kept; `steps.rt`: the counter
//! - `change.rt`: the costs after a change; `replace.rt`: the rows after it
//! - `erase.rt`: costs given up; `feed.rt`: what is offered to begin with; `settling.rt`, `outcome.rt`: nodes settled
//!
//! Choices (own):
//!
//! - `Repaired` keeps the root it was made with; edges are sorted, but only the order of starts is promised; a
//!   change visits the edges once.
#![tactic(auto)]

mod change;
mod erase;
mod feed;
mod outcome;
mod repaired;
mod replace;
mod settling;
mod steps;

pub use repaired::Repaired;
pub use steps::Steps;
