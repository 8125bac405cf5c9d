//! A candidate for the designated system, with its LAN ID.
use isis_base::{NodeId, Snpa, SystemId};

/// Who may be designated on a LAN (ISO 10589 8.4.5), with the LAN ID that its hellos say.
#[derive(Clone, Copy)]
pub struct Candidate {
    pub priority: u8,
    pub snpa: Snpa,
    pub system: SystemId,
    pub lan: NodeId,
}
