//! The timeline of an address over a lab script, as a text.
//!
//! A script is played. At each moment, after an event line and after each second of a line `run`, it is counted how far the
//! routers agree, and from how many of them packets to an address arrive, loop or are lost by the routers' own routes (RFC 1195
//! 3.10). Moments and text are this project's own.
//!
//! - `write.rt`: the call that writes a timeline; `moments.rt`: the moments of a script, one after another
//! - `tally.rt`: what is counted at a moment; `agreements.rt`: who agrees, and `flags.rt` the flags; `fates.rt`: what becomes of
//!   packets
//! - `lines.rt`: the lines of a text, and its sums
//!
//! Choices (own):
//!
//! - A second of a line `run` has a line only where the counts changed; another event line always has one.
//! - A packet counts as arriving where it arrives whichever next hops of equal cost are taken; so a router may count as one from
//!   which packets may loop and as one from which they may be lost.
//! - The router that a line `run` excepts is counted nowhere in its seconds, and packets that are handed to it are lost.
//! - Flags are those of all circuits, on LANs too, where a report has only those of links.
//! - Sums stop at the greatest number of 64 bits.
#![tactic(auto)]

mod agreements;
mod fates;
mod flags;
mod lines;
mod moments;
mod tally;
mod write;

pub use write::write_timeline;
