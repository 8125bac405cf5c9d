//! The adjacencies of a circuit, by its kind.
use adjacency::{LanAdj, P2pAdj};

/// The adjacencies of a circuit (ISO 10589 6.3): one of a point-to-point circuit, those of level 1
/// and of level 2 of a LAN.
#[derive(Drop, Debug)]
pub enum Medium {
    Point(P2pAdj),
    Lan(LanAdj, LanAdj),
}
