//! A neighbour that is kept.
use isis_base::{LevelSet, NodeId, Snpa, SystemId};

/// A neighbour (ISO 10589 8.2.4, 8.4.2): its system, SNPA and extended circuit ID (RFC 5303 3.1), its boot number (own),
/// the levels in common, the priority and LAN ID of its last hello, and the seconds of its holding
/// time that are left.
#[derive(Clone, Copy, Debug, PartialEq, Eq)]
pub struct Neighbour {
    pub system: SystemId,
    pub snpa: Snpa,
    pub id: u32,
    pub boot: u32,
    pub levels: LevelSet,
    pub priority: u8,
    pub lan: NodeId,
    pub left: u16,
}
