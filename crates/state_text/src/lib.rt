//! The state of a router, as a text: its circuits with their neighbours, its databases with their flags, its routes, and what it
//! dropped.
//!
//! The words are this project's own. A text has no timers of hellos, CSNPs and PSNPs, no waits of SRM flags, no contents of LSPs,
//! no ages of own LSPs, and no extended circuit IDs and LAN IDs.
//!
//! - `state.rt`: the whole text; `circuit_lines.rt`: a circuit, its neighbours, and the boots that it remembers
//! - `level_lines.rt`: what a level holds and has forgotten; `flag_words.rt`: circuits on which a flag stands
//! - `route_lines.rt`: the routes; `drop_lines.rt`: how often datagrams were dropped, by cause
#![tactic(auto)]

mod circuit_lines;
mod drop_lines;
mod flag_words;
mod level_lines;
mod route_lines;
mod state;

pub use state::state_of;
