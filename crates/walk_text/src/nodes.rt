//! Nodes and systems as numbers.
ghost use Rattle.std.specs.Prelude.{◌≡◌};
ghost use Rattle.lsp_view.specs.Views.{own_node};
ghost use Rattle.router_routes.specs.Outlooks.{outlook_of};
ghost use Rattle.spf_tree.specs.Nodes.{node_number, system_node};

use isis_base::{LspId, NodeId, SystemId};
use model_router::laws::identifiers::system_law;
use router_core::Router;

/// A node as a number: that of its LSP number 0.
#[tactic(auto, unfolding(spf_tree::specs::Nodes::node_number))]
pub(crate) fn number(node: NodeId) -> u64
    ensures { result ≡ node_number node }
{
    LspId { node, number: 0 }.to_number()
}

/// The node that a system is, as a number.
pub(crate) fn system_number(system: SystemId) -> u64
    ensures { result ≡ system_node system }
{
    number(NodeId {
        system,
        pseudonode: 0,
    })
}

/// The system of a router.
pub(crate) fn system_of(router: &Router) -> SystemId
    ensures { own_node result ≡ (outlook_of router.now).root }
{
    let system = router.desk().system();
    system_law(system);
    system
}
