//! A router's circuit on a link.

/// A router's circuit on a link: the numbers of both, and the circuit's place among the router's.
#[derive(Clone, Copy)]
pub(crate) struct Circuit {
    pub router: usize,
    pub link: usize,
    pub place: usize,
}
