//! Routes.

ghost use Rattle.std.specs.Prelude.{◌≡◌, IfOk};

use crate::rank::Rank;
use isis_base::{OutOfMemory, Prefix};
use spf_tree::Hops;

/// The best way to a prefix (RFC 5302 3.2): its rank, its cost in all, in units of metrics, and the systems that a packet
/// may be handed to, in order. One's own prefix has none.
#[derive(Drop, Debug)]
pub struct Route {
    pub prefix: Prefix,
    pub rank: Rank,
    pub cost: u64,
    pub hops: Hops,
}

impl Route {
    /// An equal route.
    pub(crate) fn copy(&self) -> Result<Route, OutOfMemory>
        ensures { IfOk result (λ copy. copy ≡ self.now) }
    {
        let hops = self.hops.copy()?;
        Ok(Route {
            prefix: self.prefix,
            rank: self.rank,
            cost: self.cost,
            hops,
        })
    }
}
