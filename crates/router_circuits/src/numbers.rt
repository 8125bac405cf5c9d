//! Node IDs as numbers.
ghost use Rattle.std.specs.Prelude.{◌≡◌, ◌<◌, ◌^◌};
ghost use Rattle.model_router.specs.Numbers.{node_number};

use isis_base::{LspId, NodeId};

/// A node ID as a number: its octets, the first one the greatest (ISO 10589 7.1).
pub(crate) fn node_to_number(node: NodeId) -> u64
    ensures value { result ≡ node_number node }
    ensures size { result < 2 ^ 56 }
{
    LspId { node, number: 0 }.to_number() / 256
}
