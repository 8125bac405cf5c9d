//! A router's circuits: whom each one hears, and when its hellos and sequence number PDUs are due.
//!
//! ISO 10589 8.2.4 and 8.4.2 (hellos heard), 8.4.5 (the designated system of a LAN), 8.2.3 and
//! 8.4.1 (hellos sent), 7.3.15.3, 7.3.15.4 and 7.3.17 (CSNPs and PSNPs), RFC 5303 3.2 (the
//! three-way handshake). What each call does is what the router's model (model_router) says of a
//! circuit. Own: the designated system is looked up where it is asked for, at once and without a
//! wait; the CSNP counter stands at 0 where the router isn't designated; a circuit's number counts
//! from 1. Beside `Circuit::new` and the copies only the first hello on a circuit takes memory.
//!
//! - `circuit.rt`: a circuit, made and copied, its configuration and what always holds of it
//! - `medium.rt`: its adjacencies, by its kind; `adjacencies.rt`: their calls
//! - `hearing.rt`: hellos that are heard; `greeting.rt`, `greeted.rt`: what a point-to-point hello
//!   does; `tested.rt`: hellos tested beforehand; `sizes.rt`: the sizes of their fields
//! - `senders.rt`: of whom a datagram may come; `by_snpa.rt`: neighbours by SNPA
//! - `election.rt`, `candidate.rt`, `designated.rt`: who is designated
//! - `due.rt`, `timers.rt`: the counters, and what is due
//! - `numbers.rt`: node IDs as numbers
//!
//! Choices (own):
//!
//! - Circuits are copied at a second only where an adjacency ends in it, and then without what they remember of
//!   boots.
#![tactic(auto)]

mod adjacencies;
mod by_snpa;
mod candidate;
mod circuit;
mod designated;
mod due;
mod election;
mod greeted;
mod greeting;
mod hearing;
mod medium;
mod numbers;
mod senders;
mod sizes;
mod tested;
mod timers;

pub use circuit::Circuit;
pub use designated::Designated;
pub use sizes::hello_sizes;
