//! IPv6 routes.

use crate::prefix6::Prefix6;
use crate::rank6::Rank6;
use spf_tree::Hops;

/// The best way to a prefix (RFC 5302 3.2): its rank, its cost in all, in units of metrics, and the systems that a packet may
/// be handed to, in order. The root's own prefix has none.
#[derive(Drop, Debug)]
pub struct Route6 {
    pub prefix: Prefix6,
    pub rank: Rank6,
    pub cost: u64,
    pub hops: Hops,
}
