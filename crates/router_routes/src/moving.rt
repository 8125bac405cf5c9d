//! A level's costs once some nodes tell other LSPs (own).
ghost use Rattle.std.specs.Prelude.{◌≡◌, ◌+◌, ◌-◌, ◌^◌, ◌<◌, ◌≤◌, false, filter, length, min, IfOk};
ghost use Rattle.spf_tree.specs.declared.row.Row as row;
ghost use Rattle.spf_tree.specs.Graphs.{GraphOf, AreUsable, times};
ghost use Rattle.spf_tree.specs.Nodes.{node_number};
ghost use Rattle.lsp_view.specs.Lsps.{entries_in};
ghost use Rattle.lsp_view.specs.Views.{rows_in, overloaded_in};
ghost use Rattle.router_routes.specs.Differences.{ArePartedRows};
ghost use Rattle.router_routes.specs.Near.{touches};
ghost use Rattle.router_routes.specs.Told.{told_in};
ghost use Rattle.router_routes.specs.Outlooks.{where_run};
ghost use Rattle.router_routes.specs.Moved.{AreChanged, AreCosts, AreRowsMoved, IsFit, IsOneChange, IsListing, IsReadable, or_old, told_after, told_of, told_with};

use crate::differences::rows_apart;
use crate::following::followed;
use crate::near::{graph_near, touching};
use crate::told::Moved;
use crate::view::{LevelView, lsps_at};
use isis_base::{NodeId, OutOfMemory};
use lsp_store::Store;
use lsp_view::Lsps;
use spf_repair::{Repaired, Steps};
use spf_tree::parts::{number, rows_in_order};
use spf_tree::{Graph, Row};
use std::alloc::Global;
use std::marker::Brand;
use std::sync::ledger::{Blank, Ledger};

/// How many nodes of a level may tell other LSPs before its graph is made anew.
const MOST: usize = 16;

/// Up to how many rows of a graph each is looked at.
const FEW: usize = 512;

/// A level's costs as it is read; `None` where its rows stay.
pub(crate) fn level_after(
    alloc: Global,
    runs: bool,
    old: &Repaired,
    level: &LevelView<'_>,
) -> Result<Option<Repaired>, OutOfMemory>
    requires costs { AreCosts (where_run runs (told_in level.now.store.now.entries)) old.now.root
        old.now }
    requires fit { IsFit level.now }
    ensures costs { IfOk result (λ new. AreCosts (where_run runs (told_of level.now)) old.now.root
        (or_old new old.now)) }
    ensures rows { IfOk result (λ new. AreRowsMoved old.now new) }
{
    let moved = match level.moved {
        Some(moved) => moved,
        None => return Ok(None),
    };
    if !runs {
        return Ok(None);
    }
    if moved.nodes.len() > MOST {
        return match followed(alloc, old, runs, level) {
            Ok(new) => Ok(Some(new)),
            Err(error) => Err(error),
        };
    }
    nodes_after(alloc, old, level.store, moved)
}

/// A level's costs once some nodes tell what is aside, one after another from the last; `None` where its rows stay.
fn nodes_after(
    alloc: Global,
    old: &Repaired,
    store: &Store,
    moved: Moved<'_>,
) -> Result<Option<Repaired>, OutOfMemory>
    requires costs { AreCosts (told_in store.now.entries) old.now.root old.now }
    requires fit { IsReadable store.now.entries moved }
    ensures costs { IfOk result (λ new. AreCosts
        (told_after moved.entry.nodes.now (told_in store.now.entries)
        (told_in (entries_in moved.entry.aside))) old.now.root (or_old new old.now)) }
    ensures rows { IfOk result (λ new. AreRowsMoved old.now new) }
{
    let Moved { nodes, aside } = moved;
    match nodes {
        [] => Ok(None),
        [first, more @ ..] => {
            let rest = Moved { nodes: more, aside };
            let so_far = match nodes_after(alloc, old, store, rest) {
                Ok(so_far) => so_far,
                Err(error) => return Err(error),
            };
            let before = LevelView {
                store,
                moved: Some(rest),
            };
            node_after(alloc, old, so_far, &before, *first, aside)
        }
    }
}

/// A level's costs once one more node tells what is aside.
fn node_after(
    alloc: Global,
    old: &Repaired,
    so_far: Option<Repaired>,
    before: &LevelView<'_>,
    node: NodeId,
    aside: Lsps<'_>,
) -> Result<Option<Repaired>, OutOfMemory>
    requires costs { AreCosts (told_of before.now) old.now.root (or_old so_far old.now) }
    requires rows { AreRowsMoved old.now so_far }
    requires fit { IsFit before.now }
    requires told { IsListing (told_of before.now) }
    ensures costs { IfOk result (λ new. AreCosts
        (told_with node (told_of before.now) (told_in (entries_in aside.entry))) old.now.root
        (or_old new old.now)) }
    ensures rows { IfOk result (λ new. AreRowsMoved old.now new) }
{
    match differences(alloc, newest(&so_far, old), before, node, aside) {
        Ok((removed, added)) => changed_by(alloc, so_far, old, removed, added),
        Err(error) => {
            drop(so_far);
            Err(error)
        }
    }
}

/// The costs with rows taken out and rows put in; as they are where there are none of either.
fn changed_by(
    alloc: Global,
    so_far: Option<Repaired>,
    old: &Repaired,
    removed: Vec<Row>,
    added: Vec<Row>,
) -> Result<Option<Repaired>, OutOfMemory>
    requires there { (x : row.Row) → times removed.items x
        ≤ times (or_old so_far old.now).graph.rows x }
    requires apart { ArePartedRows removed.items added.items }
    requires rows { AreRowsMoved old.now so_far }
    ensures changed { IfOk result (λ new. AreChanged (or_old so_far old.now) (or_old new old.now)
        removed.items added.items) }
    ensures rows { IfOk result (λ new. AreRowsMoved old.now new) }
{
    if removed.is_empty() && added.is_empty() {
        return Ok(so_far);
    }
    let (gone, come) = (removed.as_slice(), added.as_slice());
    match so_far {
        Some(so_far) => match changed_again(alloc, old, so_far, gone, come) {
            Ok(new) => Ok(Some(new)),
            Err(error) => Err(error),
        },
        None => match changed_first(old, gone, come) {
            Ok(new) => Ok(Some(new)),
            Err(error) => Err(error),
        },
    }
}

/// The new costs, or else the old ones.
fn newest<'a>(new: &'a Option<Repaired>, old: &'a Repaired) -> &'a Repaired
    ensures { result.now ≡ or_old new.now old.now }
{
    match new {
        Some(new) => new,
        None => old,
    }
}

/// The old costs with rows taken out and rows put in.
fn changed_first(old: &Repaired, removed: &[Row], added: &[Row]) -> Result<Repaired, OutOfMemory>
    requires there { (x : row.Row) → times removed.now x ≤ times old.now.graph.rows x }
    requires apart { ArePartedRows removed.now added.now }
    requires some { 0 < length removed.now + length added.now }
    ensures changed { IfOk result (λ new. AreChanged old.now new removed.now added.now) }
    ensures moved { IfOk result (IsOneChange old.now) }
{
    match rows_changed(old, removed, added) {
        Ok(new) => Ok(new),
        Err(error) => Err(error),
    }
}

/// New costs with more rows taken out and more rows put in: one change of the old ones in all, so that a second search makes
/// them of these.
fn changed_again(
    alloc: Global,
    old: &Repaired,
    so_far: Repaired,
    removed: &[Row],
    added: &[Row],
) -> Result<Repaired, OutOfMemory>
    requires there { (x : row.Row) → times removed.now x ≤ times so_far.graph.rows x }
    requires rows { IsOneChange old.now so_far }
    ensures changed { IfOk result (λ new.
        AreChanged so_far new removed.now added.now) }
    ensures moved { IfOk result (IsOneChange old.now) }
{
    let next = rows_changed(&so_far, removed, added);
    drop(so_far);
    match next {
        Ok(next) => match changed_to(alloc, old, next.graph()) {
            Ok(new) => Ok(new),
            Err(error) => Err(error),
        },
        Err(error) => Err(error),
    }
}

/// The old costs once their rows are those of another graph: with one change where rows are others, and else with none.
pub(crate) fn changed_to(
    alloc: Global,
    old: &Repaired,
    graph: &Graph,
) -> Result<Repaired, OutOfMemory>
    ensures same { IfOk result (λ new. (x : row.Row)
        → times new.graph.rows x ≡ times graph.now.rows x) }
    ensures moved { IfOk result (IsOneChange old.now) }
{
    let (removed, added) = rows_apart(alloc, rows_in_order(old.graph()), rows_in_order(graph))?;
    if removed.len() == 0 && added.len() == 0 {
        let costs = old.copy()?;
        return Ok(costs);
    }
    match changed_first(old, removed.as_slice(), added.as_slice()) {
        Ok(new) => Ok(new),
        Err(error) => Err(error),
    }
}

/// The rows that go and that come in a graph once a node tells what is aside.
fn differences(
    alloc: Global,
    now: &Repaired,
    before: &LevelView<'_>,
    node: NodeId,
    aside: Lsps<'_>,
) -> Result<(Vec<Row>, Vec<Row>), OutOfMemory>
    requires costs { AreCosts (told_of before.now) now.now.root now.now }
    requires fit { IsFit before.now }
    requires told { IsListing (told_of before.now) }
    ensures there { IfOk result (λ both. (x : row.Row)
        → times both.0.items x ≤ times now.now.graph.rows x) }
    ensures apart { IfOk result (λ both. ArePartedRows both.0.items both.1.items) }
    ensures then { IfOk result (λ both. (next : GraphOf)
        → ((x : row.Row) → times next.rows x + times both.0.items x
        ≡ times now.now.graph.rows x + times both.1.items x) → next.root ≡ now.now.root
        → AreUsable (rows_in (told_with node (told_of before.now) (told_in (entries_in aside.entry))))
        (overloaded_in (told_with node (told_of before.now) (told_in (entries_in aside.entry))))
        now.now.root next) }
{
    aside.kept();
    let near = graph_near(alloc, before, node, aside, now.graph().root())?;
    let old = rows_at(alloc, now, before, node)?;
    rows_apart(alloc, old.as_slice(), rows_in_order(&near))
}

/// The rows of a level's graph that start or end at a node: in a small graph each row is looked at, for another what the node
/// and its neighbours list is read.
fn rows_at(
    alloc: Global,
    now: &Repaired,
    before: &LevelView<'_>,
    node: NodeId,
) -> Result<Vec<Row>, OutOfMemory>
    requires costs { AreCosts (told_of before.now) now.now.root now.now }
    requires fit { IsFit before.now }
    requires told { IsListing (told_of before.now) }
    ensures { IfOk result (λ list. (x : row.Row) → times list.items x
        ≡ times (filter (touches (node_number node)) now.now.graph.rows) x) }
{
    let rows = now.graph().rows();
    if rows.len() <= FEW {
        return touching(alloc, rows, number(node));
    }
    let lsps = lsps_at(before, node);
    let near = graph_near(alloc, before, node, lsps, now.graph().root())?;
    match Vec::from_slice(alloc, rows_in_order(&near)) {
        Ok(list) => Ok(list),
        Err(_) => Err(OutOfMemory),
    }
}

/// The costs with rows taken out and rows put in. Its steps aren't counted further.
fn rows_changed(now: &Repaired, removed: &[Row], added: &[Row]) -> Result<Repaired, OutOfMemory>
    requires { (x : row.Row) → times removed.now x ≤ times now.now.graph.rows x }
    ensures changed { IfOk result (λ next. AreChanged now.now next removed.now added.now) }
    ensures count { IfOk result (λ next. next.changes ≡ min (now.now.changes + 1) (2 ^ 64 - 1)) }
{
    if is_too_many(now.graph().rows().len(), removed.len(), added.len()) {
        return Err(OutOfMemory);
    }
    let blank = Blank::new(1);
    match counted::<Brand>(now, removed, added, blank) {
        Ok(next) => Ok(next),
        Err(error) => Err(error),
    }
}

/// The same with a counter of its own.
fn counted<L: Ledger>(
    now: &Repaired,
    removed: &[Row],
    added: &[Row],
    blank: Blank,
) -> Result<Repaired, OutOfMemory>
    requires name { blank.name ≡ L.name }
    requires parts { blank.parts ≡ L.parts }
    requires some { 0 < blank.parts }
    requires there { (x : row.Row) → times removed.now x ≤ times now.now.graph.rows x }
    requires few { length now.now.graph.rows + length added.now < 2 ^ 32 + length removed.now }
    ensures changed { IfOk result (λ next. AreChanged now.now next removed.now added.now) }
    ensures count { IfOk result (λ next. next.changes ≡ min (now.now.changes + 1) (2 ^ 64 - 1)) }
{
    let mut steps = Steps::<L>::new(blank);
    match now.changed(removed, added, &mut steps) {
        Ok(next) => Ok(next),
        Err(error) => Err(error),
    }
}

/// Whether so many rows, with some taken out and some put in, may be past what a graph has.
fn is_too_many(rows: usize, removed: usize, added: usize) -> bool
    ensures { result ≡ false → rows + added < 2 ^ 32 + removed }
{
    match rows.checked_add(added) {
        Some(sum) => sum > removed && sum - removed > 0xffff_ffff,
        None => true,
    }
}
