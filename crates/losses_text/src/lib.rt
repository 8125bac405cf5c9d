//! What lost deliveries do to the last line of a script, as a text (own).
//!
//! - `words.rt`: how many losses, and which part of all schedules, words ask for
//! - `part_words.rt`: a part by its number and how many there are
//! - `said.rt`: what a text says; `naming.rt`: lost deliveries with the names of their routers
//! - `lines.rt`: the text
//! - `merge.rt`: texts of all parts, joined to that of the whole; `joining.rt`: joined line by line; `text_lines.rt`: what
//!   their lines say; `merge_fault.rt`: why they aren't joined
#![tactic(auto)]

mod joining;
mod lines;
mod merge;
mod merge_fault;
mod naming;
mod part_words;
mod said;
mod text_lines;
mod words;

pub use lines::losses_text;
pub use merge::merge_losses;
pub use merge_fault::{MergeFault, MergeReason};
pub use naming::name_losses;
pub use part_words::PartOf;
pub use said::{Losses, NamedLoss};
pub use words::{read_most, read_part};
