//! What will follow a router, and that put in the place of what does (own).
ghost use Rattle.std.specs.Prelude.{[], ◌≡◌, ℕ, true, List, IfOk};
ghost use Rattle.spf_repair.specs.Changes.{RepairedOf};
ghost use Rattle.router_routes.specs.Following.{AreHopsOf};
ghost use Rattle.router_routes.specs.Moved.{AreRowsMoved, or_old};
ghost use Rattle.router_routes.specs.Coming.{AreOfOneRoot, FitsIn, IsLevelAfter, IsPut, costs_after, hops_after};

use crate::following::Following;
use crate::hops_moved::{HopsMoved, hops_moved};
use crate::ways::RowsAfter;
use isis_base::{OutOfMemory, Prefix};
use route_table::Patches;
use spf_repair::Repaired;
use spf_tree::{HopTable, all_next_hops};
use std::alloc::Global;

/// What of a router's graphs and routes will be others: each level's costs and next hops, where they don't stay; what some prefixes'
/// routes and candidates become; whether it is attached. `Following::put` puts it in.
#[derive(Drop)]
pub struct Coming {
    pub(crate) one: Option<LevelAfter>,
    pub(crate) two: Option<LevelAfter>,
    pub(crate) routes: Patches,
    pub(crate) attached: bool,
    pub(crate) told: RowsAfter,
}

/// A level's costs, and its nodes beside their next hops, as they will be; the nodes whose next hops may be others then, and those
/// whose costs may be.
#[derive(Drop)]
pub(crate) struct LevelAfter {
    pub costs: Repaired,
    pub hops: HopTable,
    pub apart: Vec<u64>,
    pub moved: Vec<u64>,
}

/// Both levels as they will be; `None` where costs and hops stay.
#[derive(Drop)]
pub(crate) struct LevelsAfter {
    pub one: Option<LevelAfter>,
    pub two: Option<LevelAfter>,
}

/// What is reached once some nodes moved: the candidates of some prefixes; whether the router is attached; and the prefixes that these
/// nodes told and tell, in any order, of which some may be there twice.
#[derive(Drop)]
pub(crate) struct ReachedAfter {
    pub told: RowsAfter,
    pub attached: bool,
    pub prefixes: Vec<Prefix>,
}

impl Following {
    /// Puts in what comes. It takes no memory, and can't fail.
    pub fn put(&mut self, coming: Coming)
        requires { FitsIn self.old coming }
        ensures { IsPut self.old coming self.new }
    {
        let Coming {
            one,
            two,
            routes,
            attached,
            told,
        } = coming;
        put_level(&mut self.one, &mut self.hops_one, one);
        put_level(&mut self.two, &mut self.hops_two, two);
        self.routes.put(routes);
        self.attached = attached;
        self.told.put(told);
    }
}

/// Puts in a level's costs and hops, where they come.
fn put_level(costs: &mut Repaired, hops: &mut HopTable, new: Option<LevelAfter>)
    ensures costs { costs.new ≡ costs_after new costs.old }
    ensures hops { hops.new ≡ hops_after new hops.old }
{
    match new {
        Some(level) => {
            let LevelAfter {
                costs: later,
                hops: table,
                apart: _,
                moved: _,
            } = level;
            *costs = later;
            *hops = table;
        }
        None => {}
    }
}

/// A level's new costs with the next hops that follow of them, and what is other of both.
pub(crate) fn level_of(
    alloc: Global,
    new: Option<Repaired>,
    old: &Repaired,
    known: &HopTable,
) -> Result<Option<LevelAfter>, OutOfMemory>
    requires known { AreHopsOf old.now known.now }
    requires root { AreOfOneRoot old.now (or_old new old.now) }
    requires rows { AreRowsMoved old.now new }
    ensures costs { IfOk result (λ level. costs_after level old.now ≡ or_old new old.now) }
    ensures hops { IfOk result (λ level. IsLevelAfter old.now known.now level) }
{
    let new = match new {
        Some(new) => new,
        None => return Ok(None),
    };
    let hops = hops_moved(alloc, old, known, &new);
    match hops {
        Ok(hops) => Ok(Some(level_with(new, hops))),
        Err(error) => {
            drop(new);
            Err(error)
        }
    }
}

/// A level of these costs and next hops.
fn level_with(costs: Repaired, hops: HopsMoved) -> LevelAfter
    ensures costs { result.costs ≡ costs }
    ensures hops { result.hops ≡ hops.table }
    ensures apart { result.apart.items ≡ hops.apart.items }
    ensures moved { result.moved.items ≡ hops.moved.items }
{
    let HopsMoved {
        table,
        apart,
        moved,
    } = hops;
    LevelAfter {
        costs,
        hops: table,
        apart,
        moved,
    }
}

/// The nodes of a level beside their next hops, by its costs.
pub(crate) fn hops_from(alloc: Global, costs: &Repaired) -> Result<HopTable, OutOfMemory>
    requires { costs.now.graph.root ≡ costs.now.root }
    ensures { IfOk result (λ hops. AreHopsOf costs.now hops) }
{
    let graph = costs.graph();
    all_next_hops(alloc, graph, costs.distances(), graph.root())
}

/// The new costs, or else the old ones.
pub(crate) fn newest_costs<'a>(new: &'a Option<LevelAfter>, old: &'a Repaired) -> &'a Repaired
    ensures { result.now ≡ costs_after new.now old.now }
{
    match new {
        Some(new) => &new.costs,
        None => old,
    }
}

/// The new next hops, or else the old ones.
pub(crate) fn newest_hops<'a>(new: &'a Option<LevelAfter>, old: &'a HopTable) -> &'a HopTable
    ensures { result.now ≡ hops_after new.now old.now }
{
    match new {
        Some(new) => &new.hops,
        None => old,
    }
}

/// Whether all that is reached stays, where a router was attached or not before.
pub(crate) fn all_stays(reached: &ReachedAfter, attached: bool) -> bool
    ensures told { result ≡ true → reached.now.told.rows ≡ [] }
    ensures attached { result ≡ true → reached.now.attached ≡ attached }
{
    reached.told.is_empty() && reached.attached == attached
}
