//! How the two ends of a link stand to each other at a level.
ghost use Rattle.std.specs.Prelude.{◌≡◌, ◌-◌, ◌&&◌};
ghost use Rattle.model_router.specs.Places.{nth};
ghost use Rattle.model_router.specs.AdjacencyLaws.{opens};
ghost use Rattle.router_core.specs.Events.{IsThere};
ghost use Rattle.lab_facts.specs.LinkStates.{state_of, no_state};

use crate::counts::{count_end, excepted};
use isis_base::Level;
use router_core::{Keeping, Router};

/// How the two ends of a link stand to each other at a level: whether it is up at both; how many
/// SRM flags stand on it at each (ISO 10589 7.3.15); in how many LSP IDs each end is ahead of the
/// other, those let go by an end excepted; and how many are excepted (own).
#[derive(Clone, Copy, Debug, PartialEq, Eq)]
pub struct LinkState {
    pub up: bool,
    pub flags: [usize; 2],
    pub ahead: [usize; 2],
    pub excepted: usize,
}

/// The state of a link at a level. Where an end doesn't run the level it isn't up, and all numbers
/// are 0. It takes no memory.
pub fn link_state<K: Keeping>(
    near: &Router<K>,
    near_circuit: u8,
    far: &Router<K>,
    far_circuit: u8,
    level: Level,
) -> LinkState
    requires near { IsThere near.now near_circuit }
    requires far { IsThere far.now far_circuit }
    ensures { result
        ≡ state_of near.now (near_circuit - 1) far.now (far_circuit - 1) level }
{
    let Some(near_book) = near.book(level) else {
        return no_state();
    };
    let Some(far_book) = far.book(level) else {
        return no_state();
    };
    near.facts();
    far.facts();
    let (near_gone, far_gone) = (near.let_go(level), far.let_go(level));
    let near_end = count_end(near_book, near_circuit - 1, far_book, near_gone, far_gone);
    let far_end = count_end(far_book, far_circuit - 1, near_book, far_gone, near_gone);
    LinkState {
        up: are_up(near, near_circuit, far, far_circuit, level),
        flags: [near_end.flags, far_end.flags],
        ahead: [near_end.ahead, far_end.ahead],
        excepted: excepted(near_gone, far_gone, near_book, far_book),
    }
}

/// Whether both ends have an up adjacency of a level.
fn are_up<K: Keeping>(
    near: &Router<K>,
    near_circuit: u8,
    far: &Router<K>,
    far_circuit: u8,
    level: Level,
) -> bool
    requires near { IsThere near.now near_circuit }
    requires far { IsThere far.now far_circuit }
    ensures { result ≡ (opens (nth near.now.circuits (near_circuit - 1)) level
        && opens (nth far.now.circuits (far_circuit - 1)) level) }
{
    near.up(near_circuit, level) && far.up(far_circuit, level)
}

/// The state where an end doesn't run the level.
fn no_state() -> LinkState
    ensures { result ≡ no_state }
{
    LinkState {
        up: false,
        flags: [0, 0],
        ahead: [0, 0],
        excepted: 0,
    }
}
