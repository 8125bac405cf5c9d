//! Grids of routers: the script of a grid of so many rows and columns, its run, and the summary of what it came to.
//!
//! A grid is a large lab that a number makes (own): each router has a link to the next in its row and in its column, and
//! tells one prefix.
//!
//! - `line.rt`: the lines of the script; `script.rt`: the script
//! - `tally.rt`: how many routes there are, and what they cost; `summary.rt`: the summary
//! - `run.rt`: the script is run, and the network at its end summed up
//! - `laws.rt`: what follows for all lists of routes, and for all grids
//!
//! Choices (own):
//!
//! - Routes and costs stop at 2^64 - 1 in place of a condition on callers; the summary is written by
//!   `write_all`, since it is below a page.
#![tactic(auto)]

pub mod laws;
mod line;
mod run;
mod script;
mod summary;
mod tally;

pub use run::run_grid;
pub use script::grid_script;
pub use summary::{Summary, write_summary};
pub use tally::Tally;
