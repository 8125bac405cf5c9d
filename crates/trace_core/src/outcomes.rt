//! Which ends a packet's way may have.

/// What may become of a packet, whichever ways it takes (own).
#[derive(Clone, Copy, Debug)]
pub struct Outcomes {
    /// It may arrive.
    pub arrives: bool,
    /// It may go round for ever.
    pub loops: bool,
    /// It may be lost.
    pub lost: bool,
}
