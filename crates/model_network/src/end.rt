//! The ends of links and LANs.

/// An end of a link or LAN: a router, and the place of its circuit there, both counted from 0.
#[derive(Clone, Copy, Debug, PartialEq, Eq)]
pub struct End {
    pub router: usize,
    pub place: usize,
}
