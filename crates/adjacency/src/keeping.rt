//! The neighbour that is kept: whether a hello is from it, the state and neighbour after a hello,
//! and what became of them.
ghost use Rattle.std.specs.Prelude.{◌≡◌, ◌<◌, ◌-◌};
ghost use Rattle.model_router.specs.Adjacencies as model;
ghost use Rattle.model_router.specs.Seconds as seconds;
ghost use Rattle.model_router.specs.Both.{runs_of};
ghost use Rattle.adjacency.specs.Views.{hello_of, neighbour_of, point_of, shake_of};
ghost use Rattle.adjacency.specs.Changes.{change_of};

use crate::common::are_same_levels;
use crate::handshake::three_way;
use crate::held::Held;
use crate::hello::{AdjChange, HelloFields};
use crate::neighbour::Neighbour;
use designated_is::are_same_systems;
use isis_base::LevelSet;
use isis_tlv::{Adj, ThreeWay};

/// The state.
pub fn state_of(held: Held) -> Adj
    ensures { result ≡ (point_of held).state }
{
    match held {
        Held::Down => Adj::Down,
        Held::Initializing(_) => Adj::Initializing,
        Held::Up(_) => Adj::Up,
    }
}

/// Whether a hello with this extended circuit ID and these levels in common is from the neighbour
/// that is kept.
pub fn keeps(held: Held, hello: &HelloFields<'_>, levels: LevelSet, id: u32) -> bool
    ensures { result
        ≡ model.is_same (point_of held).neighbour (runs_of levels) (hello_of hello.now) id }
{
    match held {
        Held::Down => false,
        Held::Initializing(neighbour) => is_from(neighbour, hello, levels, id),
        Held::Up(neighbour) => is_from(neighbour, hello, levels, id),
    }
}

fn is_from(neighbour: Neighbour, hello: &HelloFields<'_>, levels: LevelSet, id: u32) -> bool
    ensures { result
        ≡ model.is_same (Some (neighbour_of neighbour)) (runs_of levels) (hello_of hello.now) id }
{
    are_same_systems(neighbour.system, hello.source)
        && neighbour.id == id
        && neighbour.boot == hello.boot
        && are_same_levels(neighbour.levels, levels)
}

/// The state and the neighbour after a hello: from Down where another neighbour is kept than its
/// sender.
pub fn held_after(
    held: Held,
    same: bool,
    hello: &HelloFields<'_>,
    levels: LevelSet,
    shake: ThreeWay,
) -> Held
    requires { same ≡ model.is_same (point_of held).neighbour (runs_of levels) (hello_of hello.now)
        (shake_of shake).extended }
    ensures { point_of result
        ≡ model.hear_point (point_of held) (runs_of levels) (hello_of hello.now) (shake_of shake) }
{
    let start = if same { state_of(held) } else { Adj::Down };
    let neighbour = neighbour_in(hello, levels, shake.own_id.unwrap_or(0));
    held_in(three_way(start, shake.state), neighbour)
}

/// The neighbour that a hello makes, with its holding time.
pub fn neighbour_in(hello: &HelloFields<'_>, levels: LevelSet, id: u32) -> Neighbour
    ensures { neighbour_of result ≡ model.neighbour_of (hello_of hello.now) (runs_of levels) id }
{
    Neighbour {
        system: hello.source,
        snpa: hello.snpa,
        id,
        boot: hello.boot,
        levels,
        priority: hello.priority,
        lan: hello.lan,
        left: hello.holding,
    }
}

/// A state with its neighbour, which isn't kept in Down.
fn held_in(state: Adj, neighbour: Neighbour) -> Held
    ensures { point_of result ≡ model.point_at state (neighbour_of neighbour) }
{
    match state {
        Adj::Down => Held::Down,
        Adj::Initializing => Held::Initializing(neighbour),
        Adj::Up => Held::Up(neighbour),
    }
}

/// A neighbour with a second less.
pub fn held_less(neighbour: Neighbour) -> Neighbour
    requires { 0 < neighbour.left }
    ensures { neighbour_of result ≡ seconds.held_less (neighbour_of neighbour) }
{
    Neighbour {
        left: neighbour.left - 1,
        ..neighbour
    }
}

/// What became of an adjacency; `same` where its neighbour stays.
pub fn change(old: Held, new: Held, same: bool) -> AdjChange
    ensures { result ≡ change_of (point_of old) (point_of new) same }
{
    let was = state_of(old);
    let is = state_of(new);
    if is == Adj::Up && !(was == Adj::Up && same) {
        return AdjChange::WentUp;
    }
    if was == Adj::Up && is != Adj::Up {
        return AdjChange::LeftUp;
    }
    if was != is || (was != Adj::Down && !same) {
        return AdjChange::Moved;
    }
    AdjChange::None
}
