//! Why no walk was written, or not all of it.

use crate::reason::WalkReason;
use lab_text::{LimitName, Reason, RunFault};

/// Why no walk was written, or not all of it. Lines are counted from 1.
#[derive(Clone, Copy, Debug, PartialEq, Eq)]
pub enum WalkFault {
    /// This event line is refused, and why. Nothing was written.
    Refused { line: usize, reason: Reason },
    /// The run passes this limit. Nothing was written.
    Limit(LimitName),
    /// There is no walk, and why. Nothing was written.
    NoWalk(WalkReason),
    /// A write failed. A prefix of the walk was written.
    Write,
    /// There is no memory for it. Nothing was written.
    OutOfMemory,
}

impl From<RunFault> for WalkFault {
    ghost use Rattle.std.specs.Prelude.{◌≡◌};
    ghost use Rattle.walk_text.specs.Faults.{walk_fault_of};

    ghost from_gives = { λ fault end. end ≡ walk_fault_of fault };

    fn from(fault: RunFault) -> WalkFault {
        match fault {
            RunFault::Refused { line, reason } => WalkFault::Refused { line, reason },
            RunFault::Limit(which) => WalkFault::Limit(which),
            RunFault::Write => WalkFault::Write,
            RunFault::OutOfMemory => WalkFault::OutOfMemory,
        }
    }
}
