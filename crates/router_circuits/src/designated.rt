//! The designated system of a LAN.
use isis_base::{NodeId, SystemId};

/// The designated system of a LAN and level, and the LAN ID that its hellos say (ISO 10589 8.4.5).
#[derive(Clone, Copy, Debug, PartialEq, Eq)]
pub struct Designated {
    pub system: SystemId,
    pub lan: NodeId,
}
