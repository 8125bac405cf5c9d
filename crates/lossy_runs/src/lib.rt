//! Lines `run` of which some deliveries are lost, and the worst of all of them (own).
//!
//! A line with losses is the line `run` of model_network but for this: each delivery takes the next fate of a list. So each way
//! of losing deliveries is some list, and what is claimed of all lists is claimed of all ways.
//!
//! - `lab.rt`: what a network under a schedule does
//! - `loss.rt`, `look.rt`: a delivery that was lost; what is seen of a line that was played
//! - `fates.rt`: the fates of deliveries
//! - `running.rt`: a line `run` with these fates
//! - `judging.rt`: all lines with so many losses
//! - `laws.rt`: what holds of them
#![tactic(auto)]

mod fates;
mod judging;
mod lab;
pub mod laws;
mod look;
mod loss;
mod running;

pub use judging::{Judge, LossyRun, worst_losses};
pub use lab::{Comes, Coming, Lab};
pub use look::Look;
pub use loss::Loss;
