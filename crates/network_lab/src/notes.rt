//! What is noted of a network's run.
use lab_facts::{Histories, Sweeps};

/// The states that routers were in after the events that they took, with what they held live of their own LSP IDs, and the
/// ranges of CSNPs that they took cleanly on LANs.
#[derive(Drop)]
pub struct Notes {
    pub past: Histories,
    pub takings: Sweeps,
}
