//! Which levels of a router are looked at.

/// The levels whose own LSPs are looked at in a router's state after an event.
#[derive(Clone, Copy)]
pub struct LevelsToSee {
    pub one: bool,
    pub two: bool,
}
