//! A line of a keys script.
use crate::name::Name;
use isis_base::{Key, LspId};

/// A line of a keys script.
#[derive(Drop)]
pub(crate) enum KeysLine<'a> {
    /// A router of this name.
    Router {
        name: Name<'a>,
    },
    /// A link between two routers.
    Link {
        first: Name<'a>,
        second: Name<'a>,
    },
    /// The next copy is made at a router.
    Issue {
        router: Name<'a>,
        id: LspId,
        key: Key,
    },
    /// A copy is passed along a link.
    Pass {
        copy: usize,
        from: Name<'a>,
        to: Name<'a>,
    },
}
