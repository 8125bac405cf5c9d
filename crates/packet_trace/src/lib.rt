//! A packet to an address, followed over routers by their own routes, whether the routers agree or not (RFC 1195 3.10).
//!
//! Each router looks the address up among its own routes, and hands the packet to the first next hop of the longest prefix
//! that has the address (RFC 1812 5.2.4.3). So a packet arrives, is lost, or loops. What links carry isn't looked at. That
//! the first of several next hops is taken is this project's own choice.
//!
//! - `forwarder.rt`: what packets meet at a router: its system ID and its routes
//! - `packets.rt`: what becomes of a packet at each router; `nodes.rt`: which router a system is
//! - `following.rt`: the packet followed to its end, and what may become of it whichever next hops it takes
//! - `laws.rt`: laws, functions without a body
#![tactic(auto)]

mod following;
mod forwarder;
pub mod laws;
mod nodes;
mod packets;

/// What other ways of following packets are made with.
pub mod parts {
    pub use crate::packets::Packets;
}

pub use following::{follow, outcomes};
pub use forwarder::Forwarder;
pub use nodes::place_of;
pub use packets::route_at;
