//! What becomes of a packet at one place, and on its whole way.

/// What becomes of a packet at a place (own).
#[derive(Clone, Copy, Debug, PartialEq, Eq)]
pub enum Step {
    /// The packet is at home: it arrived.
    Home,
    /// The packet goes on to the place of this number.
    On(usize),
    /// The packet is lost here.
    Lost,
}

/// How a packet's way ends (own).
#[derive(Clone, Copy, Debug)]
pub enum End {
    /// The packet is at home at the last place of its way.
    Arrives,
    /// The packet is lost at the last place of its way.
    Lost,
    /// The last place of its way leads back to the place with this number on it, counted from 0. So the packet goes round
    /// for ever.
    Loops(usize),
}

/// A packet's way: the places that it comes to, the first one first, and how the way ends at the last of them.
#[derive(Drop, Debug)]
pub struct Traced {
    pub places: Vec<usize>,
    pub end: End,
}
