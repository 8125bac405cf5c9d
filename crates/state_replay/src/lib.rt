//! A configuration and the journal of its daemon, read line by line, and the journal replayed as it is read: up to the state of
//! the router, as a text.
//!
//! It is this project's own. Memory is that of the router, of its text and of one line, however long the journal is. The
//! configuration is what stands before the first line that is a journal's head; the entries stand behind that line. What stands
//! behind the last LF is passed over: the daemon may not have ended it yet. Each entry is made and compared as weave_replay says
//! it. Nothing is written before all was replayed.
//!
//! - `write.rt`: the call that writes a state; `fault.rt`: why no state was written
//! - `front.rt`: the configuration, up to the head of the journal; `opening.rt`: the router at its start
//! - `entries.rt`: the entries, replayed as they are read
//! - `laws.rt`: what follows for the journal of a daemon: functions without a body, whose contracts are the laws
//!
//! Choices (own):
//!
//! - The limit of 16,777,216 octets is that of a line and of the configuration, and the input has none: the journal of a daemon
//!   passes it within a day. At most 1,000,000,000,000 entries are replayed.
//! - The boot number is asked for: the head of a journal doesn't have it. With another one the first entry that sends is refused.
#![tactic(auto)]

mod entries;
mod fault;
mod front;
pub mod laws;
mod opening;
mod write;

pub use fault::StateFault;
pub use write::{ENTRIES_LIMIT, write_state};
