//! Why no losses were written, or not all of them.

use crate::reason::LossesReason;
use lab_text::{LimitName, Reason, ScriptFault};
use losses::LossesFault;

/// Why no losses were written, or not all of them. Lines are counted from 1.
#[derive(Clone, Copy, Debug, PartialEq, Eq)]
pub enum WriteFault {
    /// An event line before the last one is refused, and why. Nothing was written.
    Refused { line: usize, reason: Reason },
    /// The script passes this limit, or the run of some schedule does. Nothing was written.
    Limit(LimitName),
    /// There are more than 16,777,216 schedules. Nothing was written.
    Schedules,
    /// There are no losses to tell of, and why. Nothing was written.
    NoLosses(LossesReason),
    /// A write failed. A prefix of the text was written.
    Write,
    /// There is no memory for it. Nothing was written.
    OutOfMemory,
}

impl From<ScriptFault> for WriteFault {
    ghost use Rattle.std.specs.Prelude.{◌≡◌};
    ghost use Rattle.lab_losses.specs.ScriptLosses.{fault_of_script};

    ghost from_gives = { λ fault end. end ≡ fault_of_script fault };

    fn from(fault: ScriptFault) -> WriteFault {
        match fault {
            ScriptFault::Refused { line, reason } => WriteFault::Refused { line, reason },
            ScriptFault::Limit(which) => WriteFault::Limit(which),
            ScriptFault::OutOfMemory => WriteFault::OutOfMemory,
        }
    }
}

impl From<LossesFault> for WriteFault {
    ghost use Rattle.std.specs.Prelude.{◌≡◌};
    ghost use Rattle.lab_losses.specs.ScriptLosses.{fault_of_losses};

    ghost from_gives = { λ fault end. end ≡ fault_of_losses fault };

    fn from(fault: LossesFault) -> WriteFault {
        match fault {
            LossesFault::TooMany => WriteFault::Schedules,
            LossesFault::Limit => WriteFault::Limit(LimitName::Datagrams),
            LossesFault::OutOfMemory => WriteFault::OutOfMemory,
        }
    }
}
