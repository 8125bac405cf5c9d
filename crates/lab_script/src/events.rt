//! What waits to be played.
use isis_base::{Key, LspId};

/// What an event line of a keys script says. Routers are named by their numbers.
#[derive(Clone, Copy, Debug, PartialEq, Eq)]
pub enum KeyEvent {
    /// The next copy is made at a router.
    Issue { router: usize, id: LspId, key: Key },
    /// A copy is passed along a link.
    Pass { copy: usize, from: usize, to: usize },
}

/// An event, and the number of the line that says it.
#[derive(Clone, Copy, Debug, PartialEq, Eq)]
pub struct EventLine {
    pub line: usize,
    pub event: KeyEvent,
}
