//! Tests of the daemon: what its outside does, call by call; and that its workers run beside each other.
//!
//! There is nothing here but tests, so they are proved against the contracts of the crates that they are of.
//!
//! - `made.rt`: a daemon of a configuration, and what is counted in its journal
//! - `outside.rt`: openings, starts, takes, offers and writes that fail; `gates.rt`: two workers that wait for each other
//! - `udp.rt`: an offer that the system refuses
#![tactic(auto)]

#[cfg(test)]
mod gates;
#[cfg(test)]
mod made;
#[cfg(test)]
mod outside;
#[cfg(test)]
mod udp;
