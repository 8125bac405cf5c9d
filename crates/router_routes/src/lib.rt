//! What a router's routes are, and a value that keeps them.
//!
//! Each level that is run has a graph over its live LSPs (ISO 10589 7.2.5, 7.2.8) and least costs from
//! the router's own node (C.2). What prefixes may be reached by is one's own prefixes, what the
//! systems tell that are reached, and the way by default to attached systems (RFC 5302 3.2, RFC 1195
//! 3.2). What one level is told of the other (RFC 5302 3) and whether the router is attached (ISO
//! 10589 7.2.9.2) follow. Own: the way by default counts where the router runs level 1, isn't
//! attached itself, and nothing else is for 0.0.0.0/0.
//!
//! - `lent.rt`: what of a router routes look at; `level_graph.rt`: the graph of a level
//! - `ways.rt`: what levels tell, by prefix, and what it will be; `rows.rt`: the rows of that table
//! - `systems.rt`: the systems that a level reaches; `candidates.rt`: what they and the router tell
//! - `differences.rt`: the rows that two graphs don't share
//! - `told.rt`: what will be told by some nodes; `view.rt`: the same where their LSPs are read aside
//! - `near.rt`: the rows that start or end at a node; `moving.rt`: a level's costs once some nodes tell other LSPs
//! - `following.rt`: the value that follows a router's databases; `leaks.rt`: what it leaks; `asked.rt`: both when asked
//! - `ahead.rt`: what will follow once this is told; `coming.rt`: that put in the place of what follows
//! - `hops_moved.rt`: a level's next hops then; `kept.rt`: what stays where some nodes moved
//! - `same.rt`: candidates and prefixes compared; `apart.rt`: what two lists of candidates don't share; `numbers.rt`: numbers in order
//! - `touched.rt`: the prefixes whose routes are looked at anew; `own.rt`: which of one's own these are
//! - `patched.rt`: the routes then
//! - `laws.rt`: the plain programs of the definitions are what the routes say
//!
//! Choices (own):
//!
//! - Candidates stand by prefix in one table in order, ways by default among them; room is taken for half as
//!   many rows more (`Ways`).
//! - Past sixteen changed nodes of a level its graph is made again (`Following::after`); 0.0.0.0/0 is always
//!   touched.
//! - Edges that two graphs begin and end with are left out before their differences are looked for
//!   (`differences`).
#![tactic(auto)]

mod ahead;
mod apart;
mod asked;
mod candidates;
mod coming;
mod differences;
mod following;
mod hops_moved;
mod kept;
pub mod laws;
mod leaks;
mod lent;
mod level_graph;
mod moving;
mod near;
mod numbers;
mod own;
mod patched;
mod rows;
mod same;
mod systems;
mod told;
mod touched;
mod view;
mod ways;

pub use asked::Leaked;
pub use coming::Coming;
pub use following::Following;
pub use lent::Lent;
pub use told::{Moved, Told};
