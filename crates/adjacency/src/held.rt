//! The state of a point-to-point adjacency, with the neighbour that is kept outside Down.
use crate::neighbour::Neighbour;

/// A neighbour is kept exactly outside Down (RFC 5303 3.2).
#[derive(Clone, Copy, Debug, PartialEq, Eq)]
pub enum Held {
    Down,
    Initializing(Neighbour),
    Up(Neighbour),
}
