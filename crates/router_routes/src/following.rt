//! The value that follows a router's databases.
ghost use Rattle.std.specs.Prelude.{◌≡◌, false, ◌+◌, ◌-◌, ◌^◌, ◌<◌, ◌≤◌, min, length, IfOk, OnOk, OnErr};
ghost use Rattle.isis_base.specs.declared.level.Level.TheVariants as level;
ghost use Rattle.model_router.specs.Both.{at};
ghost use Rattle.lsp_view.specs.Views.{own_node, rows_in, overloaded_in};
ghost use Rattle.spf_tree.specs.declared.row.Row as row;
ghost use Rattle.spf_tree.specs.Graphs.{AreUsable, times};
ghost use Rattle.router_routes.specs.Told.{told_in};
ghost use Rattle.router_routes.specs.Outlooks.{outlook_in, where_run};
ghost use Rattle.router_routes.specs.Candidates.{AreRoutesOf, attached_of, reached_in};
ghost use Rattle.router_routes.specs.Following.{AreHopsOf, IsFollowing, IsLevel};
ghost use Rattle.router_routes.specs.Moved.{AreFit, IsFit, IsOneChange, outlook_at, told_of};
ghost use Rattle.router_routes.specs.Kept.{AreReached, AreSame};

use crate::candidates::{all_candidates, own_node, told_by};
use crate::coming::hops_from;
use crate::lent::Lent;
use crate::level_graph::graph_of;
use crate::moving::changed_to;
use crate::systems::{is_attached, level_systems};
use crate::view::{LevelView, View, as_lent};
use crate::ways::Ways;
use isis_base::{Level, LevelSet, NodeId, OutOfMemory, SystemId};
use lsp_store::Store;
use model_router::has_level;
use route_table::{Candidate, Routes, routes_by};
use spf_repair::Repaired;
use spf_tree::HopTable;
use std::alloc::Global;
use std::marker::Model;

/// What a router keeps of its graphs and routes: for each level the least costs from its own node, repaired when rows change, and
/// its nodes beside their next hops; the routes; whether it is attached; and, by prefix, the candidates that its levels tell.
#[derive(Drop)]
pub struct Following {
    pub(crate) alloc: Global,
    pub(crate) one: Repaired,
    pub(crate) two: Repaired,
    pub(crate) hops_one: HopTable,
    pub(crate) hops_two: HopTable,
    pub(crate) routes: Routes,
    pub(crate) attached: bool,
    pub(crate) told: Ways,
}

impl Model for Following {
    ghost use Rattle.router_routes.specs.Following.{FollowingOf};

    ghost Value = { FollowingOf };

    ghost view = { λ f. record {
      levels = record { one = f.one; two = f.two };
      hops = record { one = f.hops_one; two = f.hops_two };
      routes = f.routes;
      attached = f.attached;
      told = f.told;
    } };
}

impl Following {
    /// What a router keeps at its start, of what is lent of it. No level's distances changed yet.
    pub fn new(alloc: Global, lent: &Lent<'_>) -> Result<Following, OutOfMemory>
        ensures follows { IfOk result (λ f. IsFollowing (outlook_in lent.now) f) }
        ensures one { IfOk result (λ f. f.levels.one.changes ≡ 0) }
        ensures two { IfOk result (λ f. f.levels.two.changes ≡ 0) }
    {
        let root = own_node(lent.system);
        let one = fresh(alloc, has_level(lent.levels, Level::One), lent.one, root)?;
        let two = fresh(alloc, has_level(lent.levels, Level::Two), lent.two, root)?;
        assembled(alloc, &as_lent(lent), one, two)
    }

    /// The routes, in order of prefix.
    pub fn routes(&self) -> &Routes
        ensures { result.now ≡ self.now.routes }
    {
        &self.routes
    }

    /// A level's distances: of no rows where the level isn't run.
    pub fn repaired(&self, level: Level) -> &Repaired
        ensures { result.now ≡ at self.now.levels level }
    {
        match level {
            Level::One => &self.one,
            Level::Two => &self.two,
        }
    }

    /// Whether the router is attached (ISO 10589 7.2.9.2): it runs both levels, and reaches a system of
    /// another area in level 2.
    pub fn attached(&self) -> bool
        ensures { result ≡ self.now.attached }
    {
        self.attached
    }
}

/// The distances of a level from scratch.
pub(crate) fn fresh(
    alloc: Global,
    runs: bool,
    store: &Store,
    root: NodeId,
) -> Result<Repaired, OutOfMemory>
    ensures graph { IfOk result (λ new.
        AreUsable (rows_in (where_run runs (told_in store.now.entries)))
        (overloaded_in (where_run runs (told_in store.now.entries))) root new.graph) }
    ensures root { IfOk result (λ new. new.root ≡ root) }
    ensures changes { IfOk result (λ new. new.changes ≡ 0) }
{
    let level = LevelView { store, moved: None };
    let graph = graph_of(alloc, runs, &level, root)?;
    Repaired::new(alloc, &graph, root)
}

/// The distances of a level, repaired for its rows as they are read.
pub(crate) fn followed(
    alloc: Global,
    old: &Repaired,
    runs: bool,
    level: &LevelView<'_>,
) -> Result<Repaired, OutOfMemory>
    requires fit { IsFit level.now }
    requires root { old.now.graph.root ≡ old.now.root }
    ensures graph { IfOk result (λ new.
        AreUsable (rows_in (where_run runs (told_of level.now)))
        (overloaded_in (where_run runs (told_of level.now))) old.now.root new.graph) }
    ensures moved { IfOk result (IsOneChange old.now) }
{
    let graph = graph_of(alloc, runs, level, old.graph().root())?;
    match changed_to(alloc, old, &graph) {
        Ok(new) => Ok(new),
        Err(error) => Err(error),
    }
}

/// The value of these distances.
pub(crate) fn assembled(
    alloc: Global,
    view: &View<'_>,
    one: Repaired,
    two: Repaired,
) -> Result<Following, OutOfMemory>
    requires fit { AreFit view.now }
    requires one { IsLevel (outlook_at view.now) level.One one }
    requires two { IsLevel (outlook_at view.now) level.Two two }
    ensures follows { IfOk result (λ f. IsFollowing (outlook_at view.now) f) }
    ensures one { IfOk result (λ f. f.levels.one ≡ one) }
    ensures two { IfOk result (λ f. f.levels.two ≡ two) }
{
    let reached = all_reached(alloc, view, &one, &two)?;
    made(alloc, view, reached, one, two)
}

/// The value of these distances, and of what they reach.
fn made(
    alloc: Global,
    view: &View<'_>,
    reached: Reached,
    one: Repaired,
    two: Repaired,
) -> Result<Following, OutOfMemory>
    requires one { IsLevel (outlook_at view.now) level.One one }
    requires two { IsLevel (outlook_at view.now) level.Two two }
    requires reached { AreReached (outlook_at view.now) reached.told.items reached.attached }
    ensures follows { IfOk result (λ f. IsFollowing (outlook_at view.now) f) }
    ensures one { IfOk result (λ f. f.levels.one ≡ one) }
    ensures two { IfOk result (λ f. f.levels.two ≡ two) }
{
    let tables = tables_of(alloc, view, &reached, &one, &two)?;
    let told = Ways::new(alloc, reached.told.as_slice())?;
    Ok(Following {
        alloc,
        one,
        two,
        hops_one: tables.hops_one,
        hops_two: tables.hops_two,
        routes: tables.routes,
        attached: reached.attached,
        told,
    })
}

/// What both levels tell, and whether the router is attached.
#[derive(Drop)]
pub(crate) struct Reached {
    pub told: Vec<Candidate>,
    pub attached: bool,
}

/// What these distances reach.
pub(crate) fn all_reached(
    alloc: Global,
    view: &View<'_>,
    one: &Repaired,
    two: &Repaired,
) -> Result<Reached, OutOfMemory>
    requires fit { AreFit view.now }
    requires one { IsLevel (outlook_at view.now) level.One one.now }
    requires two { IsLevel (outlook_at view.now) level.Two two.now }
    ensures { IfOk result
        (λ reached. AreReached (outlook_at view.now) reached.told.items reached.attached) }
{
    let ones = level_systems(alloc, has_level(view.levels, Level::One), &view.one, one)?;
    let twos = level_systems(alloc, has_level(view.levels, Level::Two), &view.two, two)?;
    let attached = attached(alloc, view, &twos)?;
    let told = told_by(alloc, view, &ones, &twos)?;
    Ok(Reached { told, attached })
}

/// Whether the router is attached, where these are the systems that level 2 reaches.
pub(crate) fn attached(
    alloc: Global,
    view: &View<'_>,
    twos: &[(SystemId, u64)],
) -> Result<bool, OutOfMemory>
    requires fit { AreFit view.now }
    requires twos { AreSame twos.now
        (reached_in (outlook_at view.now).told.two (outlook_at view.now).root) }
    ensures { IfOk result (λ attached. attached ≡ attached_of (outlook_at view.now)) }
{
    match view.levels {
        LevelSet::Both => is_attached(alloc, view.areas, &view.two, twos),
        LevelSet::One | LevelSet::Two => Ok(false),
    }
}

/// Each level's nodes beside their next hops, and the routes.
#[derive(Drop)]
pub(crate) struct Tables {
    pub hops_one: HopTable,
    pub hops_two: HopTable,
    pub routes: Routes,
}

/// The next hops by these distances, and the routes of what is reached.
pub(crate) fn tables_of(
    alloc: Global,
    view: &View<'_>,
    reached: &Reached,
    one: &Repaired,
    two: &Repaired,
) -> Result<Tables, OutOfMemory>
    requires one { IsLevel (outlook_at view.now) level.One one.now }
    requires two { IsLevel (outlook_at view.now) level.Two two.now }
    requires reached { AreReached (outlook_at view.now) reached.now.told.items reached.now.attached }
    ensures one { IfOk result (λ t. AreHopsOf one.now t.hops_one) }
    ensures two { IfOk result (λ t. AreHopsOf two.now t.hops_two) }
    ensures routes { IfOk result (λ t. AreRoutesOf (outlook_at view.now) t.routes) }
{
    let candidates = all_candidates(alloc, view, reached.told.as_slice(), reached.attached)?;
    let hops_one = hops_from(alloc, one)?;
    let hops_two = hops_from(alloc, two)?;
    let routes = routes_by(alloc, candidates.as_slice(), &hops_one, &hops_two)?;
    Ok(Tables {
        hops_one,
        hops_two,
        routes,
    })
}
