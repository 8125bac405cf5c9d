//! Nodes as numbers.

ghost use Rattle.std.specs.Prelude.{◌≡◌, ◌<◌, ◌^◌, true};
ghost use Rattle.spf_tree.specs.Nodes.{node_number, system_node, is_system};

use isis_base::{LspId, NodeId, SystemId};

/// A node as a number: that of its LSP number 0.
#[tactic(auto, unfolding(crate::specs::Nodes::node_number))]
pub fn number(node: NodeId) -> u64
    ensures { result ≡ node_number node }
{
    LspId { node, number: 0 }.to_number()
}

/// A system's own node as a number.
pub fn target_number(node: NodeId) -> u64
    requires { node.pseudonode ≡ 0 }
    ensures same { result ≡ node_number node }
    ensures system { is_system result ≡ true }
{
    number(node)
}

/// Whether the number is that of a system.
pub fn is_system(node: u64) -> bool
    ensures { result ≡ is_system node }
{
    node % 65536 == 0
}

/// The system of a number.
pub fn system_of(node: u64) -> SystemId
    requires { is_system node ≡ true }
    ensures { system_node result ≡ node }
{
    LspId::from_number(node).node.system
}
