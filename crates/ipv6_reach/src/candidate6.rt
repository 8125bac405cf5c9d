//! What an IPv6 prefix may be reached by.

use crate::prefix6::Prefix6;
use crate::rank6::Rank6;
use isis_base::NodeId;

/// A prefix that a system tells of (RFC 5308 5): how it is reached, what it costs in all, in units of metrics, and the node
/// that it is reached through.
#[derive(Clone, Copy, Debug)]
pub struct Candidate6 {
    pub prefix: Prefix6,
    pub rank: Rank6,
    pub cost: u64,
    pub origin: NodeId,
}
