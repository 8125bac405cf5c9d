//! What a prefix may be reached by.

use crate::rank::Rank;
use isis_base::{NodeId, Prefix};

/// A prefix that a system tells of (RFC 5305 4): how it is reached, what it costs in all, in units of metrics, and the node
/// that it is reached through.
#[derive(Clone, Copy, Debug)]
pub struct Candidate {
    pub prefix: Prefix,
    pub rank: Rank,
    pub cost: u64,
    pub origin: NodeId,
}
