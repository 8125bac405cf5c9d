//! The alternates for a target and one of its next hops.

use alternates::Alternate;
use isis_base::SystemId;

/// A target, one of its next hops, and the neighbours that a packet to it can be handed to in place of the
/// hop (RFC 5286 3).
#[derive(Drop, Debug)]
pub struct Backup {
    pub target: SystemId,
    pub hop: SystemId,
    pub alternates: Vec<Alternate>,
}
