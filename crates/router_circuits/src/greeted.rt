//! What a point-to-point hello did.

/// What a point-to-point hello did: whether the neighbour that was kept isn't its sender, whether a
/// hello is due, and whether a CSNP set is due on level 1 and on level 2.
#[derive(Clone, Copy)]
pub struct Greeted {
    pub anew: bool,
    pub moved: bool,
    pub one: bool,
    pub two: bool,
}
