//! Adjacencies: whom a circuit hears, and in which state.
//!
//! ISO 10589 8.2.4 (point-to-point circuits) with the three-way handshake of RFC 5303 3.2, and
//! 8.4.2 (LANs). A hello is tested, in one fixed order, and then taken: the neighbour is kept with
//! the hello's holding time. Own: the order of the tests; a hello must come from the SNPA that is
//! its source's system ID; where another neighbour, or other levels in common, are heard than are
//! kept, the adjacency goes Down first; point-to-point neighbours without the handshake are
//! refused; at most 200 neighbours are heard on a LAN and level. What a call does is what the
//! router's model (model_router) says.
//!
//! A LAN keeps its neighbours in two lists by SNPA: all that are heard, and once more those in
//! state Up, so that both are lent as they lie. A hello finds its place in each by a binary
//! search. Both lists have the room for 200 from the start, and boots that for 256 systems, so no
//! call but `new` and `copy` of `LanAdj` and of `Boots` takes memory.
//!
//! - `handshake.rt`: the table of the handshake
//! - `neighbour.rt`: a neighbour that is kept
//! - `hello.rt`: what a hello says, what is one's own, and why a hello is refused
//! - `common.rt`: the levels in common; `tests_of_hello.rt`: the tests of a hello, in their order
//! - `held.rt`, `keeping.rt`: a state with the neighbour that is kept, and what becomes of it
//! - `point.rt`: a point-to-point adjacency
//! - `boots.rt`: the greatest boot numbers that were heard, by system
//! - `by_snpa.rt`, `lan_lists.rt`: neighbours in a list by SNPA, and the two lists of a LAN
//! - `lan.rt`: the adjacencies of a LAN circuit and level
//! - `laws.rt`: when a hello is due, and who is designated among LAN neighbours
//!
//! Choices (own):
//!
//! - A point-to-point adjacency is an enum with the neighbour inside Initializing and Up, so "a neighbour
//!   exactly outside Down" needs no invariant.
//! - A LAN keeps its neighbours twice, all and those in Up, by SNPA, so both are borrowed without a copy; 200
//!   at most, room from the start.
#![tactic(auto)]

mod boots;
mod by_snpa;
mod common;
mod handshake;
mod held;
mod hello;
mod keeping;
mod lan;
mod lan_lists;
mod laws;
mod neighbour;
mod point;
mod tests_of_hello;

pub use boots::{Boots, BootsFull};
pub use handshake::three_way;
pub use hello::{AdjChange, HelloDrop, HelloFields, Own};
pub use lan::LanAdj;
pub use laws::{designated_laws, lan_laws, point_laws};
pub use neighbour::Neighbour;
pub use point::P2pAdj;
