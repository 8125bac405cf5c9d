//! The nodes of a level that tell other things once an event is done, and what they tell then (own).
use isis_base::NodeId;
use lsp_store::Store;

/// Nodes, in order and each once, that will tell other LSPs in a level: these, and no others.
#[derive(Drop)]
pub(crate) struct Movers {
    pub(crate) nodes: Vec<NodeId>,
    pub(crate) aside: Store,
}
