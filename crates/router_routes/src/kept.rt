//! What a router keeps where some nodes moved: candidates by way of others stay (own).
ghost use Rattle.std.specs.Prelude.{◌≡◌, ◌++◌, ℕ, true, map, IfOk, OnOk};
ghost use Rattle.std.specs.List.{flat_map};
ghost use Rattle.isis_base.specs.declared.identifiers.NodeId.{NodeId};
ghost use Rattle.isis_base.specs.declared.level.Level.TheVariants as level;
ghost use Rattle.isis_base.specs.Identifiers.{IsId};
ghost use Rattle.spf_tree.specs.Nodes.{node_number};
ghost use Rattle.spf_tree.specs.Distances.{cost_at};
ghost use Rattle.router_routes.specs.Candidates.{attached_of, system_ways};
ghost use Rattle.router_routes.specs.Following.{IsFollowing, IsLevel};
ghost use Rattle.router_routes.specs.Kept.{AreAmong, AreBeside, CostBeside, HaveToldIds, systems_among, ways_by};
ghost use Rattle.router_routes.specs.Moved.{AreFit, AreNodes, IsFit, is_among, nodes_in, nodes_of, outlook_at, told_of};
ghost use Rattle.router_routes.specs.Outlooks.{Outlook, outlook_in, where_run};
ghost use Rattle.router_routes.specs.Coming.{AreLevelsBeside, HaveNumbers, moved_in};
ghost use Rattle.router_routes.specs.Touched.{AreExchanged, AreStill, IsReachedAfter};
ghost use Rattle.router_routes.specs.Ways.{prefix_of};

use crate::apart::apart;
use crate::candidates::add_told;
use crate::coming::{LevelAfter, LevelsAfter, ReachedAfter, newest_costs};
use crate::following::{Following, attached};
use crate::lent::Lent;
use crate::numbers::in_order;
use crate::systems::{level_systems, systems_among};
use crate::told::{Moved, Told};
use crate::touched::node_numbers;
use crate::view::{LevelView, View, as_lent, nodes_law};
use crate::ways::prefix_numbers;
use isis_base::laws::lsp_id_law;
use isis_base::{Level, LevelSet, LspId, NodeId, OutOfMemory, Prefix};
use model_router::has_level;
use route_table::Candidate;
use spf_repair::Repaired;
use spf_tree::parts::number;
use std::alloc::Global;

impl Following {
    /// What is reached where these nodes moved, at these costs.
    pub(crate) fn reached_with(
        &self,
        lent: &Lent<'_>,
        view: &View<'_>,
        nodes: &[NodeId],
        one: &Repaired,
        two: &Repaired,
    ) -> Result<ReachedAfter, OutOfMemory>
        requires follows { IsFollowing (outlook_in lent.now) self.now }
        requires beside { AreBeside nodes.now (outlook_in lent.now) (outlook_at view.now) }
        requires nodes { AreNodes nodes.now }
        requires costs_one { CostBeside nodes.now self.now.levels.one.distances one.now.distances }
        requires costs_two { CostBeside nodes.now self.now.levels.two.distances two.now.distances }
        requires store { view.now.two.store ≡ lent.now.two }
        requires fit { AreFit view.now }
        requires one { IsLevel (outlook_at view.now) level.One one.now }
        requires two { IsLevel (outlook_at view.now) level.Two two.now }
        ensures { IfOk result (λ reached.
            IsReachedAfter nodes.now (outlook_in lent.now) (outlook_at view.now) self.now reached) }
    {
        lent_ids(lent);
        view_ids(view);
        let _old_one = self.one.distances();
        let _old_two = self.two.distances();
        let _new_one = one.distances();
        let _new_two = two.distances();
        let attached = self.attached_after(lent, view, nodes, two)?;
        let come = told_of_nodes(self.alloc, view, nodes, one, two)?;
        let went = told_of_nodes(self.alloc, &as_lent(lent), nodes, &self.one, &self.two)?;
        self.reached_of(nodes, went.as_slice(), come.as_slice(), attached)
    }

    /// What is reached where these candidates come in the place of those that these nodes told.
    fn reached_of(
        &self,
        nodes: &[NodeId],
        went: &[Candidate],
        come: &[Candidate],
        attached: bool,
    ) -> Result<ReachedAfter, OutOfMemory>
        ensures { IfOk result (λ reached. (o p : Outlook) → IsFollowing o self.now
            → AreExchanged nodes.now o p went.now come.now → attached ≡ attached_of p
            → IsReachedAfter nodes.now o p self.now reached) }
    {
        let unsorted = node_numbers(self.alloc, nodes)?;
        let moved = in_order(unsorted);
        let (left, right) = apart(went, come);
        let numbers = prefix_numbers(self.alloc, left, right)?;
        let told = self
            .told
            .after(self.alloc, numbers.as_slice(), moved.as_slice(), come)?;
        let prefixes = prefixes_of(self.alloc, left, come)?;
        Ok(ReachedAfter {
            told,
            attached,
            prefixes,
        })
    }

    /// Whether the router is attached, where these nodes moved and these are the costs of level 2: as
    /// before, where level 2 is told nothing else.
    fn attached_after(
        &self,
        lent: &Lent<'_>,
        view: &View<'_>,
        nodes: &[NodeId],
        two: &Repaired,
    ) -> Result<bool, OutOfMemory>
        requires follows { IsFollowing (outlook_in lent.now) self.now }
        requires beside { AreBeside nodes.now (outlook_in lent.now) (outlook_at view.now) }
        requires store { view.now.two.store ≡ lent.now.two }
        requires fit { AreFit view.now }
        requires two { IsLevel (outlook_at view.now) level.Two two.now }
        ensures { IfOk result (λ attached. attached ≡ attached_of (outlook_at view.now)) }
    {
        match view.two.moved {
            None => Ok(self.attached),
            Some(_) => attached_now(self.alloc, view, two),
        }
    }

    /// What is reached where these nodes moved, at these levels' costs.
    pub(crate) fn reached_by(
        &self,
        lent: &Lent<'_>,
        view: &View<'_>,
        nodes: &[NodeId],
        levels: &LevelsAfter,
    ) -> Result<ReachedAfter, OutOfMemory>
        requires follows { IsFollowing (outlook_in lent.now) self.now }
        requires store { view.now.two.store ≡ lent.now.two }
        requires fit { AreFit view.now }
        requires levels { AreLevelsBeside nodes.now (outlook_in lent.now) (outlook_at view.now)
            self.now levels.now }
        ensures { IfOk result (λ reached.
            IsReachedAfter nodes.now (outlook_in lent.now) (outlook_at view.now) self.now reached) }
    {
        let one = newest_costs(&levels.one, &self.one);
        let two = newest_costs(&levels.two, &self.two);
        self.reached_with(lent, view, nodes, one, two)
    }

    /// What systems tell by way of other nodes stays. It does nothing.
    pub(crate) fn still_law(
        &self,
        lent: &Lent<'_>,
        view: &View<'_>,
        nodes: &[NodeId],
        levels: &LevelsAfter,
    )
        requires follows { IsFollowing (outlook_in lent.now) self.now }
        requires fit { AreFit view.now }
        requires levels { AreLevelsBeside nodes.now (outlook_in lent.now) (outlook_at view.now)
            self.now levels.now }
        ensures { AreStill nodes.now (outlook_in lent.now) (outlook_at view.now) }
    {
        lent_ids(lent);
        view_ids(view);
        let one = newest_costs(&levels.one, &self.one);
        let two = newest_costs(&levels.two, &self.two);
        let _old_one = self.one.distances();
        let _old_two = self.two.distances();
        let _new_one = one.distances();
        let _new_two = two.distances();
    }
}

/// The nodes that tell other things, and those whose costs in a level may be others; some may be there twice.
pub(crate) fn moved(
    alloc: Global,
    told: &Told<'_>,
    levels: &LevelsAfter,
) -> Result<Vec<NodeId>, OutOfMemory>
    ensures ids { IfOk result (λ moved. AreNodes moved.items) }
    ensures kept { IfOk result (λ moved. AreAmong (nodes_of told.now) moved.items) }
    ensures one { IfOk result (λ moved. HaveNumbers (moved_in levels.now.one) moved.items) }
    ensures two { IfOk result (λ moved. HaveNumbers (moved_in levels.now.two) moved.items) }
{
    let mut nodes = told_nodes(alloc, told)?;
    nodes_law(nodes.as_slice());
    add_costs(&mut nodes, &levels.one)?;
    add_costs(&mut nodes, &levels.two)?;
    Ok(nodes)
}

/// The nodes that tell other things in either level.
pub(crate) fn told_nodes(alloc: Global, told: &Told<'_>) -> Result<Vec<NodeId>, OutOfMemory>
    ensures { IfOk result (λ nodes. nodes.items ≡ nodes_of told.now) }
{
    let mut nodes = Vec::new(alloc);
    add_moved(&mut nodes, told.one)?;
    add_moved(&mut nodes, told.two)?;
    Ok(nodes)
}

/// Adds those of a level.
fn add_moved(nodes: &mut Vec<NodeId>, moved: Option<Moved<'_>>) -> Result<(), OutOfMemory>
    ensures { OnOk result (nodes.new.items ≡ nodes.old.items ++ nodes_in moved.entry) }
{
    let Some(moved) = moved else {
        return Ok(());
    };
    match nodes.extend_from_slice(moved.nodes) {
        Ok(()) => Ok(()),
        Err(_) => Err(OutOfMemory),
    }
}

/// Adds the nodes whose costs may be others, where there are new ones.
fn add_costs(nodes: &mut Vec<NodeId>, level: &Option<LevelAfter>) -> Result<(), OutOfMemory>
    requires { AreNodes nodes.old.items }
    ensures ids { OnOk result (AreNodes nodes.new.items) }
    ensures kept { OnOk result (AreAmong nodes.old.items nodes.new.items) }
    ensures named { OnOk result (HaveNumbers (moved_in level.now) nodes.new.items) }
{
    match level {
        None => Ok(()),
        Some(level) => add_nodes(nodes, level.moved.as_slice()),
    }
}

/// The LSP IDs of what a router tells have eight octets. It does nothing.
fn lent_ids(lent: &Lent<'_>)
    ensures { HaveToldIds (outlook_in lent.now) }
{
    let _one = lent.one.len();
    let _two = lent.two.len();
}

/// The same of what is read.
fn view_ids(view: &View<'_>)
    requires { AreFit view.now }
    ensures { HaveToldIds (outlook_at view.now) }
{
    let _one = view.one.store.len();
    let _two = view.two.store.len();
}

/// Whether the router is attached, where these are the costs of level 2.
fn attached_now(alloc: Global, view: &View<'_>, two: &Repaired) -> Result<bool, OutOfMemory>
    requires fit { AreFit view.now }
    requires two { IsLevel (outlook_at view.now) level.Two two.now }
    ensures { IfOk result (λ attached. attached ≡ attached_of (outlook_at view.now)) }
{
    match view.levels {
        LevelSet::Both => {
            let twos = level_systems(alloc, has_level(view.levels, Level::Two), &view.two, two)?;
            attached(alloc, view, &twos)
        }
        LevelSet::One | LevelSet::Two => Ok(false),
    }
}

/// Adds the nodes of the LSP IDs of these numbers.
fn add_nodes(nodes: &mut Vec<NodeId>, numbers: &[u64]) -> Result<(), OutOfMemory>
    requires { AreNodes nodes.old.items }
    ensures ids { OnOk result (AreNodes nodes.new.items) }
    ensures kept { OnOk result (AreAmong nodes.old.items nodes.new.items) }
    ensures named { OnOk result (HaveNumbers numbers.now nodes.new.items) }
{
    let mut left = numbers;
    while let [first, more @ ..] = left {
        match add_node(nodes, *first) {
            Ok(()) => {}
            Err(error) => return Err(error),
        }
        left = more;
    }
    Ok(())
}

/// Adds the node of the LSP ID of a number.
fn add_node(nodes: &mut Vec<NodeId>, number: u64) -> Result<(), OutOfMemory>
    requires { AreNodes nodes.old.items }
    ensures ids { OnOk result (AreNodes nodes.new.items) }
    ensures kept { OnOk result (AreAmong nodes.old.items nodes.new.items) }
    ensures named { OnOk result ((m : NodeId) → IsId (record { node = m; number = 0 })
        → number ≡ node_number m → is_among nodes.new.items (node_number m) ≡ true) }
{
    let id = LspId::from_number(number);
    lsp_id_law(id);
    match nodes.push(id.node) {
        Ok(()) => Ok(()),
        Err(_) => Err(OutOfMemory),
    }
}

/// What nodes tell in both levels at these costs.
fn told_of_nodes(
    alloc: Global,
    view: &View<'_>,
    nodes: &[NodeId],
    one: &Repaired,
    two: &Repaired,
) -> Result<Vec<Candidate>, OutOfMemory>
    requires fit { AreFit view.now }
    ensures { IfOk result (λ list. list.items
        ≡ ways_by (outlook_at view.now) one.now two.now nodes.now) }
{
    let mut list = match Vec::with_capacity(alloc, nodes.len()) {
        Ok(list) => list,
        Err(_) => return Err(OutOfMemory),
    };
    add_level(
        alloc,
        &mut list,
        has_level(view.levels, Level::One),
        Level::One,
        &view.one,
        one,
        nodes,
    )?;
    add_level(
        alloc,
        &mut list,
        has_level(view.levels, Level::Two),
        Level::Two,
        &view.two,
        two,
        nodes,
    )?;
    Ok(list)
}

/// Adds what nodes tell in a level; nothing where it isn't run.
fn add_level(
    alloc: Global,
    list: &mut Vec<Candidate>,
    runs: bool,
    level: Level,
    told: &LevelView<'_>,
    repaired: &Repaired,
    nodes: &[NodeId],
) -> Result<(), OutOfMemory>
    requires { IsFit told.now }
    ensures { OnOk result (list.new.items ≡ list.old.items
        ++ flat_map (system_ways level (where_run runs (told_of told.now)))
        (systems_among (cost_at repaired.now.distances) (node_number repaired.now.graph.root)
        nodes.now)) }
{
    if !runs {
        return Ok(());
    }
    let root = number(repaired.graph().root());
    let systems = match systems_among(alloc, repaired.distances(), root, nodes) {
        Ok(systems) => systems,
        Err(error) => return Err(error),
    };
    add_told(alloc, list, level, told, systems.as_slice())
}

/// The prefixes of candidates of two lists.
fn prefixes_of(
    alloc: Global,
    some: &[Candidate],
    more: &[Candidate],
) -> Result<Vec<Prefix>, OutOfMemory>
    ensures { IfOk result (λ prefixes. prefixes.items ≡ map prefix_of some.now ++ map prefix_of more.now) }
{
    let mut prefixes = Vec::new(alloc);
    add_prefixes(&mut prefixes, some)?;
    add_prefixes(&mut prefixes, more)?;
    Ok(prefixes)
}

/// Adds the prefixes of candidates.
fn add_prefixes(prefixes: &mut Vec<Prefix>, candidates: &[Candidate]) -> Result<(), OutOfMemory>
    ensures { OnOk result (prefixes.new.items
        ≡ prefixes.old.items ++ map prefix_of candidates.now) }
{
    match prefixes.reserve(candidates.len()) {
        Ok(()) => {}
        Err(_) => return Err(OutOfMemory),
    }
    for candidate in candidates {
        match prefixes.push(candidate.prefix) {
            Ok(()) => {}
            Err(_) => return Err(OutOfMemory),
        }
    }
    Ok(())
}
