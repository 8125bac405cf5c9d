//! What routes look at, where what some nodes tell is read elsewhere (own).
ghost use Rattle.std.specs.Prelude.{◌≡◌, IfSome, MatchOption};
ghost use Rattle.lsp_view.specs.Lsps.{entries_in};
ghost use Rattle.lsp_view.specs.Views.{own_node, lead_of, reach_in};
ghost use Rattle.router_routes.specs.Told.{told_in};
ghost use Rattle.router_routes.specs.Kept.{AreBeside};
ghost use Rattle.router_routes.specs.Outlooks.{Outlook, outlook_in};
ghost use Rattle.router_routes.specs.Moved.{AreFit, AreMoved, AreNodes, AreViewed, IsAside, IsFit, IsInOrder, NodesRise, is_among, is_one, nodes_of, told_at, told_of, outlook_at};

use crate::candidates::own_node;
use crate::lent::Lent;
use crate::told::{Moved, Told};
use isis_base::laws::lsp_id_law;
use isis_base::{AreaAddress, LevelSet, LspId, NodeId, Prefix, SystemId};
use lsp_store::Store;
use lsp_view::Lsps;
use spf_tree::parts::number;

/// The database of a level, where the LSPs of some nodes may be read in another one.
#[derive(Clone, Copy)]
pub(crate) struct LevelView<'a> {
    pub store: &'a Store,
    pub moved: Option<Moved<'a>>,
}

/// What of a router routes look at, level by level.
#[derive(Clone, Copy)]
pub(crate) struct View<'a> {
    pub system: SystemId,
    pub areas: &'a [AreaAddress],
    pub levels: LevelSet,
    pub prefixes: &'a [(Prefix, u32)],
    pub one: LevelView<'a>,
    pub two: LevelView<'a>,
}

/// A router as it is.
#[tactic(auto, unfolding(crate::specs::Moved::outlook_at, crate::specs::Outlooks::outlook_in))]
pub(crate) fn as_lent<'a>(lent: &Lent<'a>) -> View<'a>
    ensures same { outlook_at result ≡ outlook_in lent.now }
    ensures fit { AreFit result }
{
    View {
        system: lent.system,
        areas: lent.areas,
        levels: lent.levels,
        prefixes: lent.prefixes,
        one: LevelView {
            store: lent.one,
            moved: None,
        },
        two: LevelView {
            store: lent.two,
            moved: None,
        },
    }
}

/// A router where this will be told.
pub(crate) fn as_told<'a>(lent: &Lent<'a>, told: &Told<'a>) -> View<'a>
    requires one { IsInOrder told.now.one }
    requires two { IsInOrder told.now.two }
    ensures same { (o : Outlook) → AreMoved (outlook_in lent.now) o told.now → o ≡ outlook_at result }
    ensures viewed { AreViewed lent.now told.now result }
    ensures fit { AreFit result }
    ensures beside { AreBeside (nodes_of told.now) (outlook_in lent.now) (outlook_at result) }
{
    let _one = lent.one.len();
    let _two = lent.two.len();
    moved_law(told.one);
    moved_law(told.two);
    view_of(lent, told)
}

/// What is known of nodes that tell other things. It does nothing.
fn moved_law(moved: Option<Moved<'_>>)
    ensures { IfSome moved.entry (λ m. IsAside m) }
{
    match moved {
        Some(moved) => {
            moved.aside.kept();
            nodes_law(moved.nodes);
        }
        None => {}
    }
}

/// Nodes have seven octets. It does nothing.
pub(crate) fn nodes_law(nodes: &[NodeId])
    ensures { AreNodes nodes.now }
{
    let mut left = nodes;
    while let [first, more @ ..] = left {
        lsp_id_law(LspId {
            node: *first,
            number: 0,
        });
        left = more;
    }
}

/// The parts of a router where this will be told.
fn view_of<'a>(lent: &Lent<'a>, told: &Told<'a>) -> View<'a>
    ensures { AreViewed lent.now told.now result }
{
    View {
        system: lent.system,
        areas: lent.areas,
        levels: lent.levels,
        prefixes: prefixes_after(lent, told),
        one: LevelView {
            store: lent.one,
            moved: told.one,
        },
        two: LevelView {
            store: lent.two,
            moved: told.two,
        },
    }
}

/// The prefixes that are told, or else those that are.
fn prefixes_after<'a>(lent: &Lent<'a>, told: &Told<'a>) -> &'a [(Prefix, u32)]
    ensures { MatchOption told.now.prefixes (result.now ≡ lent.now.prefixes.now)
        (λ prefixes. result.now ≡ prefixes.now) }
{
    match told.prefixes {
        Some(prefixes) => prefixes,
        None => lent.prefixes,
    }
}

/// Where the LSPs of a system are read.
pub(crate) fn lsps_of<'a>(level: &LevelView<'a>, system: SystemId) -> Lsps<'a>
    requires { IsFit level.now }
    ensures lead { lead_of (told_in (entries_in result)) (own_node system)
        ≡ lead_of (told_of level.now) (own_node system) }
    ensures reach { reach_in (told_in (entries_in result)) system
        ≡ reach_in (told_of level.now) system }
{
    let node = own_node(system);
    lsp_id_law(LspId { node, number: 255 });
    let lsps = lsps_at(level, node);
    let _entries = level.store.len();
    lsps.kept();
    lsps
}

/// Where the LSPs of a node are read.
pub(crate) fn lsps_at<'a>(level: &LevelView<'a>, node: NodeId) -> Lsps<'a>
    requires { IsFit level.now }
    ensures { told_at node (told_in (entries_in result)) ≡ told_at node (told_of level.now) }
{
    match level.moved {
        Some(moved) => {
            if is_there(moved.nodes, number(node)) {
                moved.aside
            } else {
                Lsps::of(level.store)
            }
        }
        None => Lsps::of(level.store),
    }
}

/// Whether the node of a number is among these, which stand in order, or whether it is beside them.
pub(crate) fn is_one(there: bool, nodes: &[NodeId], node: u64) -> bool
    requires { NodesRise 0 nodes.now }
    ensures { result ≡ is_one there nodes.now node }
{
    let is = is_there(nodes, node);
    if there { is } else { !is }
}

/// Whether the node of a number is one of these, which stand in order.
fn is_there(nodes: &[NodeId], node: u64) -> bool
    requires { NodesRise 0 nodes.now }
    ensures { result ≡ is_among nodes.now node }
{
    match nodes.binary_search_by_key(&node, |one| number(*one)) {
        Ok(_) => true,
        Err(_) => false,
    }
}
