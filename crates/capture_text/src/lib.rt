//! The texts that captured LSPs are told in: the IPv4 and the IPv6 routes of a system, and its loop-free alternates.
//!
//! An input is read line by line, each one LSP in hex, into a captured database (ISO 10589 7.3.15). Of that the
//! routes (RFC 5302 3.2, RFC 5308 5) or the alternates (RFC 5286 3) of a system are found, and only then the first
//! octet is written. Own: the form of the input and of the texts, and that a system that is attached to level 2 itself
//! has no way by default.
//!
//! - `reading.rt`: lines read into a capture; `read.rt`: what they come to; `laws.rt`: what follows for all lines
//! - `absence.rt`: what LSPs lack of a system
//! - `best.rt`: the IPv4 routes of a system; `routes_text.rt`: the text of them; `route_lines.rt`: its lines
//! - `routes6_text.rt`: the text of IPv6 routes; `route6_lines.rt`: its lines
//! - `backup.rt`: the alternates for a target and one of its next hops; `backups.rt`: those for all of them
//! - `alternate_text.rt`: the text of alternates; `alternate_lines.rt`: its lines
//! - `left.rt`: what is still to come of a text; `head.rt`: the lines that both begin with
//!
//! Choices (own):
//!
//! - What is kept is counted by lines, also where a later one replaces it; a line that can't be kept ends
//!   nothing; targets are systems with a hop.
#![tactic(auto)]

mod absence;
mod alternate_lines;
mod alternate_text;
mod backup;
mod backups;
mod best;
mod head;
pub mod laws;
mod left;
mod read;
mod reading;
mod route6_lines;
mod route_lines;
mod routes6_text;
mod routes_text;

pub use absence::Absence;
pub use alternate_text::write_alternates;
pub use read::Read;
pub use reading::read_capture;
pub use routes_text::write_routes;
pub use routes6_text::write_routes6;
