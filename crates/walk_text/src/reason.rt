//! Why there is no walk.
ghost use Rattle.std.specs.Prelude.{◌≡◌, Some};
ghost use Rattle.walk_text.specs.Reasons.{reason_word, reason_of};

use crate::ForwardFault;
use std::fmt;

/// Why there is no walk, in the order in which it is looked for.
#[derive(Clone, Copy, Debug, PartialEq, Eq)]
pub enum WalkReason {
    /// The text is a keys script.
    Keys,
    /// The script has no router of this name.
    Name,
    /// Some router runs level 2.
    Levels,
    /// Some router holds a live LSP of a system that is none of the routers.
    Stranger,
    /// Routers hold other live LSPs than the first one.
    Views,
    /// A router's own LSPs don't say what its own routes are.
    Unsettled,
    /// A router's own LSPs list a neighbour at metric 0.
    Zero,
    /// The prefix isn't one router's own.
    Owners,
    /// The router that is walked from has no route of the prefix.
    NoRoute,
}

impl fmt::Display for WalkReason {
    ghost output = { λ reason. Some (reason_word reason) };

    fn fmt<W: fmt::Write>(&self, f: &mut fmt::Formatter<W>) -> fmt::Result {
        match self {
            WalkReason::Keys => write!(f, "keys"),
            WalkReason::Name => write!(f, "name"),
            WalkReason::Levels => write!(f, "levels"),
            WalkReason::Stranger => write!(f, "stranger"),
            WalkReason::Views => write!(f, "views"),
            WalkReason::Unsettled => write!(f, "unsettled"),
            WalkReason::Zero => write!(f, "zero"),
            WalkReason::Owners => write!(f, "owners"),
            WalkReason::NoRoute => write!(f, "no-route"),
        }
    }
}

/// The reason that a fault of a walk is told as; none where there was no memory for it.
pub(crate) fn reason_of(fault: ForwardFault) -> Option<WalkReason>
    ensures { result ≡ reason_of fault }
{
    match fault {
        ForwardFault::Levels { .. } => Some(WalkReason::Levels),
        ForwardFault::Stranger { .. } => Some(WalkReason::Stranger),
        ForwardFault::Views { .. } => Some(WalkReason::Views),
        ForwardFault::Unsettled { .. } => Some(WalkReason::Unsettled),
        ForwardFault::Zero { .. } => Some(WalkReason::Zero),
        ForwardFault::Owners { .. } => Some(WalkReason::Owners),
        ForwardFault::NoRoute => Some(WalkReason::NoRoute),
        ForwardFault::OutOfMemory => None,
    }
}
