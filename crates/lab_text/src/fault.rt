//! Why a script's run didn't end with its whole report.
ghost use Rattle.std.specs.Prelude.{Some};

use lab_keys::LimitName;
use lab_script::{Reason, ScriptFault};
use std::error::Error;
use std::fmt;

/// Why a script's run didn't end with its whole report. Lines are counted from 1.
#[derive(Clone, Copy, Debug, PartialEq, Eq)]
pub enum RunFault {
    /// This event line is refused, and why. Nothing was written.
    Refused { line: usize, reason: Reason },
    /// The run passes this limit. Nothing was written.
    Limit(LimitName),
    /// A write failed. A prefix of the report was written.
    Write,
    /// There is no memory for the run. A prefix of the report was written.
    OutOfMemory,
}

impl fmt::Display for RunFault {
    ghost use Rattle.lab_text.specs.FaultTexts.{run_fault_text};

    ghost output = { λ fault. Some (run_fault_text fault) };

    fn fmt<W: fmt::Write>(&self, f: &mut fmt::Formatter<W>) -> fmt::Result {
        match self {
            RunFault::Refused { line, reason } => write!(f, "line {line} {reason}"),
            RunFault::Limit(which) => write!(f, "limit {which}"),
            RunFault::Write => write!(f, "write fault"),
            RunFault::OutOfMemory => write!(f, "out of memory"),
        }
    }
}

impl Error for RunFault {}

impl From<ScriptFault> for RunFault {
    ghost use Rattle.std.specs.Prelude.{◌≡◌};
    ghost use Rattle.lab_text.specs.RunFaults.{run_fault_of};

    ghost from_gives = { λ fault end. end ≡ run_fault_of fault };

    fn from(fault: ScriptFault) -> RunFault {
        match fault {
            ScriptFault::Refused { line, reason } => RunFault::Refused { line, reason },
            ScriptFault::Limit(which) => RunFault::Limit(which),
            ScriptFault::OutOfMemory => RunFault::OutOfMemory,
        }
    }
}
