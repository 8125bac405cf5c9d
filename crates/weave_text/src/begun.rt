//! A block that isn't ended.
use isis_base::Octets;

/// A block that isn't ended: its router, the number of its first line, and its journal's text so far.
#[derive(Drop)]
pub(crate) struct Begun {
    pub(crate) router: usize,
    pub(crate) line: usize,
    pub(crate) text: Octets,
}
