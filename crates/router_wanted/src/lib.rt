//! The own LSPs that a level wants.
//!
//! ISO 10589 7.3.7 to 7.3.10: the system's LSP says its area addresses, the circuits' addresses,
//! the neighbours of each circuit and the prefixes; on each LAN whose designated system the router
//! is, the pseudonode's LSP says the router and all up neighbours. Each is split into fragments
//! (7.3.4). What the call answers is what the router's model (model_router) wants. Own: overload is
//! set too where 256 fragments don't hold all entries; what is leaked (RFC 5302 3) and whether the
//! router is attached (7.2.9.2) is told by the caller, from its routes.
//!
//! A neighbour and a leaked prefix find their places by a binary search; nothing is sorted anew.
//!
//! - `wants.rt`: what is lent of a configuration; `wanted.rt`: an own LSP that is wanted
//! - `nodes.rt`: neighbours in order; `system_nodes.rt`: those of circuits and of LANs
//! - `reaches.rt`: prefixes, one's own and leaked ones; `flags.rt`: the flags octet
//! - `fragments.rt`: the split of what fits; `numbering.rt`: fragments with their LSP IDs
//! - `contents.rt`: what LSPs say before they are split; `building.rt`: all LSPs of a level
#![tactic(auto)]

mod building;
mod contents;
mod flags;
mod fragments;
mod nodes;
mod numbering;
mod reaches;
mod system_nodes;
mod wanted;
mod wants;

pub use building::wanted_lsps;
pub use wanted::Wanted;
pub use wants::Wants;
