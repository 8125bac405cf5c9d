//! The configuration of a router, and its changes.
use crate::list::{Areas, Circuits, Prefixes};
use isis_base::{LevelSet, Octets, Prefix, SystemId};

/// The configuration of a router: its system, its area addresses, the levels that it runs, whether
/// it leaks routes of L2 into L1 (RFC 5302 3), whether it sets overload (ISO 10589 7.3.19), its
/// circuits, its own prefixes, and the keys of L1 and L2 (RFC 5304 3).
#[derive(Drop, Debug)]
pub struct Config {
    pub system: SystemId,
    pub areas: Areas,
    pub levels: LevelSet,
    pub leak: bool,
    pub overload: bool,
    pub circuits: Circuits,
    pub prefixes: Prefixes,
    pub area_key: Option<Octets>,
    pub domain_key: Option<Octets>,
}

/// A change of a configuration while the router runs: the metric of a circuit, counted from 1; a
/// prefix with its metric, or without it no more; whether overload is set.
#[derive(Clone, Copy, Debug, PartialEq, Eq)]
pub enum Change {
    Metric { circuit: u8, metric: u32 },
    Prefix { prefix: Prefix, metric: Option<u32> },
    Overload { on: bool },
}
