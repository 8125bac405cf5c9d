//! A delivery that was lost.

/// A datagram that wasn't delivered to a router.
#[derive(Clone, Copy, Debug, PartialEq, Eq)]
pub struct Loss {
    /// The place of the delivery among all that came up, counted from 0.
    pub place: usize,
    /// The datagram, by its number, counted from 1.
    pub datagram: usize,
    /// The router, by its number, counted from 0.
    pub router: usize,
}
