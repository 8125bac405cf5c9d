//! The trace of a packet after a lab script, as a text.
//!
//! A script is played, and at its end a packet to an address is followed from one of its routers by each router's own routes
//! (RFC 1195 3.10), whether the routers agree or not. The form of the text is this project's own.
//!
//! - `write.rt`: the call that writes a trace; `find.rt`: the trace, or why there is none; `lines.rt`: its text
//! - `forwarders.rt`: the routers of a network as packets meet them
//! - `laws.rt`: where routers are alike, as forward_views tests it, a packet arrives at the cost of the first route. Each
//!   router hands it to the next hop of one prefix, along which the cost falls. So it can't loop, and it isn't lost before the
//!   owner of the prefix; where a packet loops or is lost, routers differ
#![tactic(auto)]

mod find;
mod forwarders;
pub mod laws;
mod lines;
mod write;

/// What other texts of packets are written with.
pub mod parts {
    pub use crate::forwarders::forwarders_of;
}

pub use write::write_trace;
