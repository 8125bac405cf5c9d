//! The tests of a hello, in their order (ISO 10589 8.2.4.2, RFC 5303 3.2; the order: own).
ghost use Rattle.std.specs.Prelude.{◌≡◌, false, ℕ, List, length, nat_le, ◌&&◌, is_none, Some, IfOk};
ghost use Rattle.isis_base.specs.declared.level.Level.TheVariants as one;
ghost use Rattle.model_router.specs.Adjacencies as model;
ghost use Rattle.model_router.specs.Both as both;
ghost use Rattle.model_router.specs.Maps.{find};
ghost use Rattle.model_router.specs.Routers.{LanNeighbour};
ghost use Rattle.model_router.specs.HelloTests.{is_below, hello_drop, known_point, known_lan};
ghost use Rattle.model_router.specs.Numbers.{system_number, snpa_number};
ghost use Rattle.model_router.specs.Both.{runs_of};
ghost use Rattle.adjacency.specs.Views.{common_runs, config_of, hello_of};
ghost use Rattle.adjacency.specs.Changes.{IsTested};

use crate::common::{both_run_one, common_level, common_levels};
use crate::hello::{HelloDrop, HelloFields, Own};
use designated_is::are_same_systems;
use isis_base::{Level, LevelSet, SystemId};
use isis_tlv::ThreeWay;

/// The tests of a point-to-point hello: the levels in common and the three-way value where all
/// pass.
/// `greatest` is the boot number that is remembered of its source.
pub fn test_point(
    own: &Own<'_>,
    hello: &HelloFields<'_>,
    greatest: Option<u32>,
) -> Result<(LevelSet, ThreeWay), HelloDrop>
    ensures tested { (boots : List (ℕ × ℕ)) → greatest ≡ find boots (system_number hello.now.source)
        → IsTested result (known_point (config_of own.now) own.now.id boots (hello_of hello.now)) }
    ensures recent { IfOk result (λ _. is_below hello.now.boot greatest ≡ false) }
    ensures levels { IfOk result (λ p.
        runs_of p.0 ≡ model.common_of (config_of own.now) (hello_of hello.now)) }
    ensures shake { IfOk result (λ p. hello.now.three_way ≡ Some p.1) }
{
    let both_one = both_run_one(own.levels, hello.levels);
    let levels = match test_hello(own, hello, common_levels(own, hello), both_one, greatest) {
        Ok(levels) => levels,
        Err(refused) => return Err(refused),
    };
    let Some(shake) = hello.three_way else {
        return Err(HelloDrop::NoThreeWay);
    };
    if let Some((system, id)) = shake.neighbour {
        if !are_same_systems(system, own.system) || id != own.id {
            return Err(HelloDrop::OtherNeighbour);
        }
    }
    Ok((levels, shake))
}

/// The tests of a LAN hello, of which its own level alone is looked at: that level where all pass.
/// `is_full` where its sender is new and 200 are heard.
pub fn test_lan(
    own: &Own<'_>,
    level: Level,
    hello: &HelloFields<'_>,
    is_full: bool,
    greatest: Option<u32>,
) -> Result<LevelSet, HelloDrop>
    ensures tested { (heard : List (ℕ × LanNeighbour)) (boots : List (ℕ × ℕ))
        → greatest ≡ find boots (system_number hello.now.source)
        → is_full ≡ (nat_le 200 (length heard) && is_none (find heard (snpa_number hello.now.snpa)))
        → IsTested result (known_lan (config_of own.now) level boots heard (hello_of hello.now)) }
    ensures recent { IfOk result (λ _. is_below hello.now.boot greatest ≡ false) }
    ensures levels { IfOk result (λ levels.
        runs_of levels
        ≡ both.alone level (model.common_of (config_of own.now) (hello_of hello.now))) }
    ensures system { IfOk result (λ _.
        system_number hello.now.source ≡ snpa_number hello.now.snpa) }
    ensures room { IfOk result (λ _. is_full ≡ false) }
{
    let both_one = is_one(level) && both_run_one(own.levels, hello.levels);
    let levels = match test_hello(
        own,
        hello,
        common_level(own, level, hello),
        both_one,
        greatest,
    ) {
        Ok(levels) => levels,
        Err(refused) => return Err(refused),
    };
    if is_full {
        return Err(HelloDrop::TooMany);
    }
    Ok(levels)
}

fn is_one(level: Level) -> bool
    ensures { result ≡ both.is_level level one.One }
{
    match level {
        Level::One => true,
        Level::Two => false,
    }
}

/// The tests of hellos of both kinds: the levels in common where all pass. `both_one` where both
/// run level 1.
fn test_hello(
    own: &Own<'_>,
    hello: &HelloFields<'_>,
    common: Option<LevelSet>,
    both_one: bool,
    greatest: Option<u32>,
) -> Result<LevelSet, HelloDrop>
    ensures tested { (boots : List (ℕ × ℕ)) → greatest ≡ find boots (system_number hello.now.source)
        → IsTested result
        (hello_drop (config_of own.now) boots (common_runs common) both_one (hello_of hello.now)) }
    ensures recent { IfOk result (λ _. is_below hello.now.boot greatest ≡ false) }
    ensures levels { IfOk result (λ levels. common ≡ Some levels) }
    ensures system { IfOk result (λ _.
        system_number hello.now.source ≡ snpa_number hello.now.snpa) }
{
    if are_same_systems(hello.source, own.system) {
        return Err(HelloDrop::OwnId);
    }
    if !are_same_systems(hello.source, SystemId(hello.snpa.0)) {
        return Err(HelloDrop::OtherSnpa);
    }
    if is_below(hello.boot, greatest) {
        return Err(HelloDrop::OldBoot);
    }
    let Some(levels) = common else {
        return Err(if both_one {
            HelloDrop::NoArea
        } else {
            HelloDrop::NoLevel
        });
    };
    Ok(levels)
}

/// Whether a boot number is below the one that is remembered, if one is.
fn is_below(boot: u32, greatest: Option<u32>) -> bool
    ensures { result ≡ is_below boot greatest }
{
    match greatest {
        Some(greatest) => boot < greatest,
        None => false,
    }
}
