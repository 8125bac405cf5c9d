//! Why a walk isn't promised.

use isis_base::{OutOfMemory, SystemId};

/// Why a walk isn't promised: the first of these that holds (own). Routers are numbered as the network numbers them.
#[derive(Clone, Copy, Debug, PartialEq, Eq)]
pub enum ForwardFault {
    /// A router runs level 2, the first such.
    Levels { router: usize },
    /// A live LSP of level 1 is of a system that is none of the routers, the least such.
    Stranger { system: SystemId },
    /// A router has another live view of level 1 than the first router, the first such.
    Views { router: usize },
    /// A router's own LSPs don't list just its own routes, or list one as come down, or say that it is attached, the first such.
    Unsettled { router: usize },
    /// A router's own LSPs list a neighbour at metric 0, the first such.
    Zero { router: usize },
    /// The prefix isn't one router's own; `count` is of how many it is.
    Owners { count: usize },
    /// The first router has no route of the prefix.
    NoRoute,
    /// There is no memory for it.
    OutOfMemory,
}

impl From<OutOfMemory> for ForwardFault {
    ghost use Rattle.std.specs.Prelude.{◌≡◌};
    ghost use Rattle.walk_text.specs.Refusals.{no_memory};

    ghost from_gives = { λ _ fault. fault ≡ no_memory };

    fn from(_error: OutOfMemory) -> ForwardFault {
        ForwardFault::OutOfMemory
    }
}
