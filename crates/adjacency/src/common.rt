//! The levels in common (ISO 10589 8.2.4.2).
ghost use Rattle.std.specs.Prelude.{◌≡◌, ◌&&◌};
ghost use Rattle.model_router.specs.Adjacencies as model;
ghost use Rattle.model_router.specs.Both as both;
ghost use Rattle.model_router.specs.Both.{runs_of};
ghost use Rattle.adjacency.specs.Views.{common_runs, config_of, hello_of};

use crate::hello::{HelloFields, Own};
use isis_base::{AreaAddress, Level, LevelSet};
use model_router::has_level;

/// The levels that both run, level 1 only where an area address is shared; `None` where there is
/// none.
pub fn common_levels(own: &Own<'_>, hello: &HelloFields<'_>) -> Option<LevelSet>
    ensures { common_runs result ≡ model.common_of (config_of own.now) (hello_of hello.now) }
{
    match (
        shares_one(own, hello),
        both_run_two(own.levels, hello.levels),
    ) {
        (true, true) => Some(LevelSet::Both),
        (true, false) => Some(LevelSet::One),
        (false, true) => Some(LevelSet::Two),
        (false, false) => None,
    }
}

/// The level of a LAN hello, where it is in common (ISO 10589 8.4.2.1).
pub fn common_level(own: &Own<'_>, level: Level, hello: &HelloFields<'_>) -> Option<LevelSet>
    ensures { common_runs result
        ≡ both.alone level (model.common_of (config_of own.now) (hello_of hello.now)) }
{
    let (common, set) = match level {
        Level::One => (shares_one(own, hello), LevelSet::One),
        Level::Two => (both_run_two(own.levels, hello.levels), LevelSet::Two),
    };
    if common { Some(set) } else { None }
}

/// Whether both run level 1.
pub fn both_run_one(own: LevelSet, heard: LevelSet) -> bool
    ensures { result ≡ ((runs_of own).one && (runs_of heard).one) }
{
    has_level(own, Level::One) && has_level(heard, Level::One)
}

/// Whether both run level 1 and an area address is shared.
fn shares_one(own: &Own<'_>, hello: &HelloFields<'_>) -> bool
    ensures { result ≡ (model.common_of (config_of own.now) (hello_of hello.now)).one }
{
    both_run_one(own.levels, hello.levels) && shares(own.areas, hello.areas)
}

/// Whether both run level 2.
fn both_run_two(own: LevelSet, heard: LevelSet) -> bool
    ensures { result ≡ ((runs_of own).two && (runs_of heard).two) }
{
    has_level(own, Level::Two) && has_level(heard, Level::Two)
}

/// Whether two sets of levels are the same.
pub fn are_same_levels(a: LevelSet, b: LevelSet) -> bool
    ensures { result ≡ both.same_levels (runs_of a) (runs_of b) }
{
    match (a, b) {
        (LevelSet::One, LevelSet::One) => true,
        (LevelSet::Two, LevelSet::Two) => true,
        (LevelSet::Both, LevelSet::Both) => true,
        _ => false,
    }
}

/// Whether an area address is on both lists.
fn shares(own: &[AreaAddress], heard: &[AreaAddress]) -> bool
    ensures { result ≡ model.shares own.now heard.now }
{
    for area in heard {
        if has_area(own, area.octets()) {
            return true;
        }
    }
    false
}

fn has_area(areas: &[AreaAddress], octets: &[u8]) -> bool
    ensures { result ≡ model.has_area areas.now octets.now }
{
    for area in areas {
        if area.octets() == octets {
            return true;
        }
    }
    false
}
