//! Which router a system is.
ghost use Rattle.std.specs.Prelude.{◌≡◌, ◌<◌, length, map, IfSome};
ghost use Rattle.spf_tree.specs.Nodes.{system_node};
ghost use Rattle.packet_trace.specs.Steps as steps;

use crate::forwarder::Forwarder;
use isis_base::{NodeId, SystemId};
use spf_tree::parts::number;

/// The place of the first router of a system; `None` exactly where no router is of it.
pub fn place_of(forwarders: &[Forwarder], system: SystemId) -> Option<usize>
    ensures there { IfSome result (λ place. place < length forwarders.now) }
    ensures is { result ≡ steps.place_of (map steps.node_of forwarders.now) (system_node system) }
{
    let node = system_number(system);
    for place in 0..forwarders.len() {
        if node_of(&forwarders[place]) == node {
            return Some(place);
        }
    }
    None
}

/// The node of a router, as a number.
fn node_of(forwarder: &Forwarder) -> u64
    ensures { result ≡ steps.node_of forwarder.now }
{
    system_number(forwarder.system)
}

/// The node that a system is, as a number.
fn system_number(system: SystemId) -> u64
    ensures { result ≡ system_node system }
{
    number(NodeId {
        system,
        pseudonode: 0,
    })
}
