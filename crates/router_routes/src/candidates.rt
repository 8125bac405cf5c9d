//! What prefixes may be reached by (RFC 5302 3.2).
ghost use Rattle.std.specs.Prelude.{[], ◌≡◌, ◌≤◌, ◌++◌, ◌&&◌, not, map, filter, IfOk, OnOk};
ghost use Rattle.std.specs.List.{flat_map};
ghost use Rattle.std.specs.List.Sorted.{IsStrictlyIncreasing};
ghost use Rattle.model_router.specs.Both.{runs_of};
ghost use Rattle.lsp_view.specs.Views.{own_node};
ghost use Rattle.router_routes.specs.Moved.{IsFit, AreFit, told_of, outlook_at};
ghost use Rattle.router_routes.specs.Candidates.{LeaveRoom, attached_of, default_of, is_default, is_weighed, own_candidate, rank_in, reached_in, system_ways, told_candidate, ways_of, weighed_of};
ghost use Rattle.router_routes.specs.Kept.{AreReached, AreSame};
ghost use Rattle.router_routes.specs.Ways.{AreWays, is_for, put_all, weighed_at};

use crate::numbers::is_one_of;
use crate::view::{LevelView, View, lsps_of};
use crate::ways::{RowsAfter, Ways, ways_then};
use isis_base::{Level, LevelSet, NodeId, OutOfMemory, Prefix, SystemId};
use isis_tlv::PrefixItem;
use model_router::has_level;
use route_table::{Candidate, Rank};
use std::alloc::Global;

/// All candidates of a router: its own prefixes, and what levels tell, with ways by default where they may count.
pub(crate) fn all_candidates(
    alloc: Global,
    view: &View<'_>,
    told: &[Candidate],
    attached: bool,
) -> Result<Vec<Candidate>, OutOfMemory>
    requires { AreReached (outlook_at view.now) told.now attached }
    ensures { IfOk result (λ list. AreSame list.items (weighed_of (outlook_at view.now))) }
{
    let mut list = with_room(alloc, told.len())?;
    add_own(&mut list, own_node(view.system), view.prefixes)?;
    add_weighed(&mut list, told, may_default(view.levels, attached))?;
    Ok(list)
}

/// Those of a router's candidates that are for prefixes of these numbers, once these rows are put in.
pub(crate) fn candidates_for(
    alloc: Global,
    view: &View<'_>,
    table: &Ways,
    after: &RowsAfter,
    attached: bool,
    numbers: &[u64],
) -> Result<Vec<Candidate>, OutOfMemory>
    requires told { AreWays (put_all table.now.rows after.now.rows) (ways_of (outlook_at view.now)) }
    requires attached { attached ≡ attached_of (outlook_at view.now) }
    requires rising { IsStrictlyIncreasing numbers.now }
    ensures { IfOk result (λ list. AreSame list.items
        (filter (is_for numbers.now) (weighed_of (outlook_at view.now)))) }
{
    let mut list = with_room(alloc, numbers.len())?;
    add_own_for(&mut list, own_node(view.system), view.prefixes, numbers)?;
    let may = may_default(view.levels, attached);
    add_rows(&mut list, table, after, may, numbers)?;
    Ok(list)
}

/// Adds the candidates of some rows, as they will be, ways by default where these may count.
fn add_rows(
    list: &mut Vec<Candidate>,
    table: &Ways,
    after: &RowsAfter,
    may: bool,
    numbers: &[u64],
) -> Result<(), OutOfMemory>
    ensures { OnOk result (list.new.items ≡ list.old.items
        ++ flat_map (weighed_at may (put_all table.now.rows after.now.rows)) numbers.now) }
{
    for number in numbers {
        match add_weighed(list, ways_then(table, after, *number), may) {
            Ok(()) => {}
            Err(error) => return Err(error),
        }
    }
    Ok(())
}

/// Adds candidates, ways by default where these may count.
fn add_weighed(list: &mut Vec<Candidate>, ways: &[Candidate], may: bool) -> Result<(), OutOfMemory>
    ensures { OnOk result (list.new.items ≡ list.old.items ++ filter (is_weighed may) ways.now) }
{
    for way in ways {
        if may || !is_default(way.rank) {
            match list.push(*way) {
                Ok(()) => {}
                Err(_) => return Err(OutOfMemory),
            }
        }
    }
    Ok(())
}

/// Whether a rank is that of ways by default.
fn is_default(rank: Rank) -> bool
    ensures { result ≡ is_default rank }
{
    matches!(rank, Rank::Default)
}

/// Adds those of one's own prefixes that are of these numbers.
fn add_own_for(
    list: &mut Vec<Candidate>,
    root: NodeId,
    prefixes: &[(Prefix, u32)],
    numbers: &[u64],
) -> Result<(), OutOfMemory>
    requires { IsStrictlyIncreasing numbers.now }
    ensures { OnOk result (list.new.items ≡ list.old.items
        ++ filter (is_for numbers.now) (map (own_candidate root) prefixes.now)) }
{
    for own in prefixes {
        if is_one_of(numbers, own.0.to_number()) {
            match list.push(own_candidate(root, *own)) {
                Ok(()) => {}
                Err(_) => return Err(OutOfMemory),
            }
        }
    }
    Ok(())
}

/// What levels tell, where these are the systems that they reach.
pub(crate) fn told_by(
    alloc: Global,
    view: &View<'_>,
    ones: &[(SystemId, u64)],
    twos: &[(SystemId, u64)],
) -> Result<Vec<Candidate>, OutOfMemory>
    requires fit { AreFit view.now }
    requires ones { AreSame ones.now
        (reached_in (outlook_at view.now).told.one (outlook_at view.now).root) }
    requires twos { AreSame twos.now
        (reached_in (outlook_at view.now).told.two (outlook_at view.now).root) }
    requires room_one { LeaveRoom ones.now }
    requires room_two { LeaveRoom twos.now }
    ensures { IfOk result (λ list. AreSame list.items (ways_of (outlook_at view.now))) }
{
    let mut list = with_room(alloc, ones.len())?;
    add_told(alloc, &mut list, Level::One, &view.one, ones)?;
    add_told(alloc, &mut list, Level::Two, &view.two, twos)?;
    Ok(list)
}

/// The empty list, with room for so many candidates.
fn with_room(alloc: Global, many: usize) -> Result<Vec<Candidate>, OutOfMemory>
    ensures { IfOk result (λ list. list.items ≡ []) }
{
    match Vec::with_capacity(alloc, many) {
        Ok(list) => Ok(list),
        Err(_) => Err(OutOfMemory),
    }
}

/// Whether ways by default may count: where level 1 is run, and the router isn't attached itself.
fn may_default(levels: LevelSet, attached: bool) -> bool
    ensures { result ≡ ((runs_of levels).one && not attached) }
{
    has_level(levels, Level::One) && !attached
}

/// The node that a system is.
pub(crate) fn own_node(system: SystemId) -> NodeId
    ensures { result ≡ own_node system }
{
    NodeId {
        system,
        pseudonode: 0,
    }
}

/// Adds one's own prefixes.
fn add_own(
    list: &mut Vec<Candidate>,
    root: NodeId,
    prefixes: &[(Prefix, u32)],
) -> Result<(), OutOfMemory>
    ensures { OnOk result (list.new.items
        ≡ list.old.items ++ map (own_candidate root) prefixes.now) }
{
    for own in prefixes {
        let candidate = own_candidate(root, *own);
        match list.push(candidate) {
            Ok(()) => {}
            Err(_) => return Err(OutOfMemory),
        }
    }
    Ok(())
}

fn own_candidate(root: NodeId, own: (Prefix, u32)) -> Candidate
    ensures { result ≡ own_candidate root own }
{
    Candidate {
        prefix: own.0,
        rank: Rank::Own,
        cost: u64::from(own.1),
        origin: root,
    }
}

/// Adds what the systems of a level tell.
pub(crate) fn add_told(
    alloc: Global,
    list: &mut Vec<Candidate>,
    level: Level,
    told: &LevelView<'_>,
    systems: &[(SystemId, u64)],
) -> Result<(), OutOfMemory>
    requires fit { IsFit told.now }
    requires room { LeaveRoom systems.now }
    ensures { OnOk result (list.new.items ≡ list.old.items
        ++ flat_map (system_ways level (told_of told.now)) systems.now) }
{
    let (mut items, mut listed) = (Vec::new(alloc), Vec::new(alloc));
    for reached in systems {
        match add_system(&mut items, &mut listed, list, level, told, *reached) {
            Ok(()) => {}
            Err(error) => return Err(error),
        }
    }
    Ok(())
}

/// Adds what a system tells. The first two lists are room that is used again.
fn add_system(
    items: &mut Vec<PrefixItem>,
    listed: &mut Vec<PrefixItem>,
    list: &mut Vec<Candidate>,
    level: Level,
    told: &LevelView<'_>,
    reached: (SystemId, u64),
) -> Result<(), OutOfMemory>
    requires fit { IsFit told.now }
    requires room { reached.1 ≤ 18446744065119617025 }
    ensures { OnOk result (list.new.items ≡ list.old.items
        ++ system_ways level (told_of told.now) reached) }
{
    let (system, cost) = reached;
    let lsps = lsps_of(told, system);
    lsps.kept();
    lsps.reach_into(items, listed, system)?;
    add_items(list, level, system, cost, items.as_slice())?;
    match level {
        Level::One => add_default(list, told, system, cost),
        Level::Two => Ok(()),
    }
}

/// Adds prefixes that a system tells.
fn add_items(
    list: &mut Vec<Candidate>,
    level: Level,
    system: SystemId,
    cost: u64,
    items: &[PrefixItem],
) -> Result<(), OutOfMemory>
    requires { cost ≤ 18446744065119617025 }
    ensures { OnOk result (list.new.items
        ≡ list.old.items ++ map (told_candidate level (system, cost)) items.now) }
{
    for item in items {
        match list.push(told_candidate(level, system, cost, item)) {
            Ok(()) => {}
            Err(_) => return Err(OutOfMemory),
        }
    }
    Ok(())
}

/// The candidate that an item is.
fn told_candidate(level: Level, system: SystemId, cost: u64, item: &PrefixItem) -> Candidate
    requires { cost ≤ 18446744065119617025 }
    ensures { result ≡ told_candidate level (system, cost) item.now }
{
    Candidate {
        prefix: item.prefix,
        rank: rank_in(level, item.down),
        cost: cost + u64::from(item.metric),
        origin: own_node(system),
    }
}

/// The rank of a prefix that is told in a level (RFC 5302 3.2).
fn rank_in(level: Level, down: bool) -> Rank
    ensures { result ≡ rank_in level down }
{
    match level {
        Level::One => { if down { Rank::OneDown } else { Rank::One } }
        Level::Two => Rank::Two,
    }
}

/// Adds the way by default to a system, where it is attached.
fn add_default(
    list: &mut Vec<Candidate>,
    told: &LevelView<'_>,
    system: SystemId,
    cost: u64,
) -> Result<(), OutOfMemory>
    requires { IsFit told.now }
    ensures { OnOk result (list.new.items
        ≡ list.old.items ++ default_of (told_of told.now) (system, cost)) }
{
    let lsps = lsps_of(told, system);
    lsps.kept();
    if !lsps.is_attached(system) {
        return Ok(());
    }
    match Prefix::new(0, 0) {
        None => Ok(()),
        Some(prefix) => {
            let candidate = Candidate {
                prefix,
                rank: Rank::Default,
                cost,
                origin: own_node(system),
            };
            match list.push(candidate) {
                Ok(()) => Ok(()),
                Err(_) => Err(OutOfMemory),
            }
        }
    }
}
