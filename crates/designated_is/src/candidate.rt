//! A candidate for the designated system.
use isis_base::{Snpa, SystemId};

/// Who may be elected (ISO 10589 8.4.5): a system with its priority, 0 to 127, and its SNPA on the
/// LAN.
#[derive(Clone, Copy, Debug, PartialEq, Eq)]
pub struct Candidate {
    pub priority: u8,
    pub snpa: Snpa,
    pub system: SystemId,
}
