//! The weaving of a text's journals, as the text of a lab script.
//!
//! A text has a head, the setup and change lines of a lab script, and for each journal a block of its router's name, the
//! journal's lines and `end`. The part ahead is played as a lab script (lab_text), and the journals are woven into a schedule
//! of the network at its end (weave). What is written is a lab script: the lines as they were read, and the events of the
//! schedule. The form of both texts is this project's own.
//!
//! - `input_lines.rt`: the lines of a text, one after another; `ahead.rt`: the part ahead of the blocks
//! - `blocks.rt`: the blocks, line by line, and `begun.rt` one that isn't ended; `forms.rt`: the line that begins a block, or why
//!   it doesn't
//! - `write.rt`: the call that writes a weaving; `laid.rt`: the part of a text ahead of its journals, played; `woven.rt`: the
//!   weaving
//! - `lines.rt`: the lab script's text; `words.rt`: its lines, by their words; `named.rt`: whether the script names what its events are of
//! - `reason.rt`: why journals can't be woven; `fault.rt`: why nothing was written
//! - `laws.rt`: what follows: a function without a body of its own, whose contract is the law
//!
//! Choices (own):
//!
//! - A setup line after a block is `late` only where it has a form; a block that doesn't end is refused at the
//!   last line.
//! - Each journal is read from a copy of its lines; comments and empty lines aren't written, all other lines
//!   octet for octet.
#![tactic(auto)]

mod ahead;
mod begun;
mod blocks;
mod fault;
mod forms;
mod input_lines;
mod laid;
pub mod laws;
mod lines;
mod named;
mod reason;
mod words;
mod woven;
mod write;

pub use fault::WeaveTextFault;
pub use reason::WeaveReason;
pub use write::write_weave;
