//! IPv6 routes of a captured database (RFC 5308): of LSPs of any maker, read one after another.
//!
//! A capture keeps of each LSP ID the newest LSP (ISO 10589 7.3.16.1). Of its graph and of the IPv6 prefixes that systems tell, the
//! routes of any system are made. Own: a TLV with a fault is unread as a whole, the external mark and the protocols supported
//! aren't looked at, and a prefix that didn't come down is preferred on either level.
//!
//! - `prefix6.rt`: prefixes; `text6.rt`: their texts; `item6.rt`, `items6.rt`: the value of code 236, read and written
//! - `capture.rt`: captures; `head.rt`: an LSP's header; `took.rt`: what becomes of octets; `laws.rt`: what follows for all
//! - `reach6.rt`: the prefixes that a system tells; `rank6.rt`, `candidate6.rt`, `candidates6.rt`: what they may be reached by
//! - `numbered.rt`: prefixes by places, among which the route table chooses; `route6.rt`, `best6.rt`: the routes
//!
//! Choices (own):
//!
//! - IPv6 prefixes are numbered in their order, and the table of IPv4 routes chooses among the numbers, at /32.
//! - The law of what is held speaks of takes that were answered; the contract names the graph and the least
//!   costs of the routes.
#![tactic(auto)]

mod best6;
mod candidate6;
mod candidates6;
mod capture;
mod head;
mod item6;
mod items6;
pub mod laws;
mod numbered;
mod prefix6;
mod rank6;
mod reach6;
mod route6;
mod text6;
mod took;

/// What a capture holds, for crates that look for more in it.
pub mod parts {
    pub use crate::capture::store;
}

pub use best6::routes6;
pub use capture::Capture;
pub use item6::Prefix6Item;
pub use items6::{Prefix6Items, items6_law, prefixes6, put_prefixes6};
pub use prefix6::Prefix6;
pub use rank6::Rank6;
pub use route6::Route6;
pub use took::Took;
