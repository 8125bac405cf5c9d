//! A daemon's journal, read: its entries, each with its event and its reply.
//!
//! A journal's text is what circuit_threads writes; no standard speaks of it, it is this project's
//! own. A line's form is a row of a table, and its words are taken one after another; octets are
//! copied once the line is known to be an entry's. The first line that is no entry's, with entries
//! numbered from 1, is told.
//!
//! - `journal.rt`: a journal, read line by line; `fault.rt`: why it can't be
//! - `entry.rt`: an entry, its event and its reply
//! - `forms.rt`: the entry of some words, a reader for each form; `fields.rt`: what a word says
//! - `lent.rt`: an entry whose octets still lie in the text
//! - `hex_words.rt`: the octets that end a line
//! - `laws.rt`: what is written is read: functions without a body, whose contracts are the laws
//!
//! Choices (own):
//!
//! - An empty datagram in a reply `send` is a blank with nothing after it; after the last line feed an empty
//!   line is allowed.
#![tactic(auto)]

mod entry;
mod fault;
mod fields;
mod forms;
mod hex_words;
mod journal;
pub mod laws;
mod lent;

pub use entry::{WovenEntry, WovenEvent, WovenReply};
pub use fault::JournalFault;
pub use journal::{read_entry, read_journal};
