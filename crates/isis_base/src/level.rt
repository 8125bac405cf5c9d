//! Levels, sets of levels, and kinds of circuits.

/// A level of routing (ISO 10589 6.2).
#[derive(Clone, Copy, Debug, PartialEq, Eq, PartialOrd, Ord, Hash)]
pub enum Level {
    One,
    Two,
}

/// The levels that a router or a circuit runs; never none.
#[derive(Clone, Copy, Debug, PartialEq, Eq, Hash)]
pub enum LevelSet {
    One,
    Two,
    Both,
}

/// What a circuit is (ISO 10589 6.3): a point-to-point link, or a LAN (a broadcast subnetwork).
#[derive(Clone, Copy, Debug, PartialEq, Eq, Hash)]
pub enum CircuitKind {
    PointToPoint,
    Lan,
}
