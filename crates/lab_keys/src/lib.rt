//! The plain network of numbered copies: routers pass keys along links, and each router holds, of each LSP ID, the
//! newest key that reached it (ISO 10589 7.3.16). And why calls of a network, of this one and of network_lab's,
//! are refused (own).
//!
//! - `net.rt`: the plain network; `laws.rt`: its limits, pinned by laws
//! - `held.rt`: the newest keys of one router, by LSP ID
//! - `faults.rt`: why a call is refused
//!
//! Choices (own):
//!
//! - A router's keys are one list sorted by LSP ID: look-ups are binary searches, a new LSP ID moves those
//!   after it.
#![tactic(auto)]

mod faults;
mod held;
pub mod laws;
mod net;

pub use faults::{LabFault, LimitName};
pub use net::{KeyNet, LINK_LIMIT, ROUTER_LIMIT};
