//! Neighbours of an LSP in order of nodes.
ghost use Rattle.std.specs.Prelude.{◌≡◌, ◌/◌, map, IfSome, OnOk};
ghost use Rattle.isis_base.specs.Identifiers.{lsp_number};
ghost use Rattle.model_router.specs.LspNeighbours.{put_node, put_nodes};
ghost use Rattle.model_router.specs.Numbers.{node_number};
ghost use Rattle.lsp_fragments.specs.Entries.{node_and_metric};
ghost use Rattle.router_wanted.specs.Parts.{IsBehind, NotFalling};
ghost use Rattle.router_wanted.specs.Views.{AreGood, IsGoodItem, node_in};

use isis_base::{LspId, NodeId, OutOfMemory};
use isis_tlv::NeighbourItem;

/// A node ID as a number.
pub(crate) fn number(node: NodeId) -> u64
    ensures value { result ≡ lsp_number (record { node = node; number = 0 }) / 256 }
    ensures same { lsp_number (record { node = node; number = 0 }) / 256 ≡ node_number node }
{
    LspId { node, number: 0 }.to_number() / 256
}

/// Puts a neighbour, where there is one, behind those of no greater node.
pub(crate) fn put(
    list: &mut Vec<NeighbourItem>,
    item: Option<NeighbourItem>,
) -> Result<(), OutOfMemory>
    requires order { NotFalling 0 (map node_and_metric list.old.items) }
    requires good { AreGood list.old.items }
    requires item { IfSome item IsGoodItem }
    ensures ok { OnOk result (map node_and_metric list.new.items
        ≡ put_nodes (map node_and_metric list.old.items) (node_in item)) }
    ensures order { NotFalling 0 (map node_and_metric list.new.items) }
    ensures good { AreGood list.new.items }
{
    match item {
        None => Ok(()),
        Some(item) => put_one(list, item),
    }
}

/// Puts a neighbour behind those of no greater node.
pub(crate) fn put_one(list: &mut Vec<NeighbourItem>, item: NeighbourItem) -> Result<(), OutOfMemory>
    requires order { NotFalling 0 (map node_and_metric list.old.items) }
    requires good { AreGood list.old.items }
    requires item { IsGoodItem item }
    ensures ok { OnOk result (map node_and_metric list.new.items
        ≡ put_node (map node_and_metric list.old.items) (node_and_metric item)) }
    ensures order { NotFalling 0 (map node_and_metric list.new.items) }
    ensures good { AreGood list.new.items }
{
    let place = place_of(list, item);
    match list.insert(place, item) {
        Ok(()) => Ok(()),
        Err(_) => Err(OutOfMemory),
    }
}

/// The place behind those of no greater node.
fn place_of(list: &[NeighbourItem], item: NeighbourItem) -> usize
    requires { NotFalling 0 (map node_and_metric list.now) }
    ensures { IsBehind list.now item result }
{
    let limit = number(item.node);
    list.partition_point(|other| number(other.node) <= limit)
}
