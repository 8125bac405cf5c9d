//! What a point-to-point hello does to an adjacency.
ghost use Rattle.std.specs.Prelude.{◌≡◌, ◌&&◌, not, IfOk, IfSome, IsSome, OnErr, Some};
ghost use Rattle.std.specs.Option.{option_map};
ghost use Rattle.isis_base.specs.declared.level.Level.TheVariants as level;
ghost use Rattle.model_router.specs.Adjacencies as model;
ghost use Rattle.model_router.specs.Both as both;
ghost use Rattle.model_router.specs.Configs.{Config};
ghost use Rattle.model_router.specs.HelloTests.{point_drop};
ghost use Rattle.model_router.specs.Hellos.{minded};
ghost use Rattle.adjacency.specs.Changes.{IsTested};
ghost use Rattle.model_router.specs.Both.{runs_of};
ghost use Rattle.adjacency.specs.Views.{neighbour_of, point_of};
ghost use Rattle.router_circuits.specs.Hellos.{IsGreeted, IsOwn, hello_of, is_change, is_coming_up, is_one};

use crate::adjacencies::is_change;
use crate::greeted::Greeted;
use crate::sizes::{hello_sizes, own_words};
use adjacency::{AdjChange, Boots, HelloDrop, HelloFields, Neighbour, Own, P2pAdj};
use designated_is::are_same_systems;
use isis_base::{Level, LevelSet};
use isis_tlv::Adj;

/// Takes a hello: what it did, where no test refuses it.
pub(crate) fn greet(
    point: &mut P2pAdj,
    own: &Own<'_>,
    hello: &HelloFields<'_>,
    boots: &mut Boots,
) -> Result<Greeted, HelloDrop>
    ensures tested { (config : Config) → IsOwn config own.now
        → IsTested result (point_drop config own.now.id boots.old (hello_of hello.now)) }
    ensures shaken { IfOk result (λ _. IsSome hello.now.three_way) }
    ensures unchanged { OnErr result (point.new ≡ point.old) }
    ensures forgets { OnErr result (boots.new ≡ boots.old) }
    ensures minded { IfOk result (λ _. boots.new ≡ minded boots.old (hello_of hello.now)) }
    ensures greeted { (config : Config) → IsOwn config own.now
        → IfOk result (λ greeted. IfSome (hello_of hello.now).handshake (λ shake.
        IsGreeted (point_of point.old) (point_of point.new)
        (model.common_of config (hello_of hello.now)) (hello_of hello.now) shake greeted)) }
{
    own_words(own);
    hello_sizes(hello);
    let old = *point;
    let change = match point.hear_hello(own, hello, boots) {
        Ok(change) => change,
        Err(refused) => return Err(refused),
    };
    Ok(greeted(old, *point, change))
}

/// What a hello did that made an adjacency of another.
fn greeted(old: P2pAdj, new: P2pAdj, change: AdjChange) -> Greeted
    ensures anew { result.anew ≡ not (is_one (point_of old).neighbour (point_of new).neighbour) }
    ensures moved { result.moved ≡ is_change change }
    ensures one { result.one ≡ (is_coming_up change && model.point_open (point_of new) level.One) }
    ensures two { result.two ≡ (is_coming_up change && model.point_open (point_of new) level.Two) }
{
    let came_up = came_up(change);
    Greeted {
        anew: !are_one(kept(&old), kept(&new)),
        moved: is_change(change),
        one: came_up & is_open(&new, Level::One),
        two: came_up & is_open(&new, Level::Two),
    }
}

/// Whether an adjacency came up.
fn came_up(change: AdjChange) -> bool
    ensures { result ≡ is_coming_up change }
{
    match change {
        AdjChange::WentUp => true,
        _ => false,
    }
}

/// Whether an adjacency is up on a level.
pub(crate) fn is_open(point: &P2pAdj, level: Level) -> bool
    ensures { result ≡ model.point_open (point_of point.now) level }
{
    point.state() == Adj::Up && keeps(kept(point), level)
}

/// The neighbour that is kept.
fn kept(point: &P2pAdj) -> Option<Neighbour>
    ensures { option_map neighbour_of result ≡ (point_of point.now).neighbour }
{
    point.neighbour().copied()
}

/// Whether the neighbour that is kept has a level in common.
fn keeps(neighbour: Option<Neighbour>, level: Level) -> bool
    ensures { result ≡ model.keeps_level (option_map neighbour_of neighbour) level }
{
    match neighbour {
        Some(neighbour) => has(neighbour.levels, level),
        None => false,
    }
}

/// Whether a level is one of these.
fn has(levels: LevelSet, level: Level) -> bool
    ensures { result ≡ both.at (runs_of levels) level }
{
    match (levels, level) {
        (LevelSet::One, Level::Two) => false,
        (LevelSet::Two, Level::One) => false,
        _ => true,
    }
}

/// Whether two neighbours are one: by system, extended circuit ID, boot number and levels in common.
fn are_one(a: Option<Neighbour>, b: Option<Neighbour>) -> bool
    ensures { result ≡ is_one (option_map neighbour_of a) (option_map neighbour_of b) }
{
    match (a, b) {
        (Some(a), Some(b)) => {
            are_same_systems(a.system, b.system)
                && a.id == b.id
                && a.boot == b.boot
                && are_same_levels(a.levels, b.levels)
        }
        _ => false,
    }
}

fn are_same_levels(a: LevelSet, b: LevelSet) -> bool
    ensures { result ≡ both.same_levels (runs_of a) (runs_of b) }
{
    match (a, b) {
        (LevelSet::One, LevelSet::One) => true,
        (LevelSet::Two, LevelSet::Two) => true,
        (LevelSet::Both, LevelSet::Both) => true,
        _ => false,
    }
}
