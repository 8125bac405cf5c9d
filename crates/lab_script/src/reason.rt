//! Why a line is refused, and why a script can't be read.
ghost use Rattle.lab_script.specs.declared.reason.ScriptFault.TheVariants.{OutOfMemory};
ghost use Rattle.std.specs.Prelude.{◌≡◌, Some, Err};
ghost use Rattle.lab_script.specs.Reasons.{reason_word};

use lab_keys::LimitName;
use std::alloc::{AllocError, AllocFailed};
use std::error::Error;
use std::fmt;

/// Why a line of a script is refused.
#[derive(Clone, Copy, Debug, PartialEq, Eq)]
pub enum Reason {
    /// Line 1 is no head of a script.
    Head,
    /// The line has none of the forms of lines, or a field that is none or out of its range.
    Form,
    /// A setup line after an event line.
    Late,
    /// An unknown router or link is named.
    Name,
    /// A name or a system ID is given again, or a router is put twice on a link.
    Again,
    /// The routers aren't joined by a link, or the router isn't an end of the link.
    NotOn,
    /// The copy isn't made yet, or isn't where it is passed from.
    NotSent,
}

impl fmt::Display for Reason {
    ghost output = { λ reason. Some (reason_word reason) };

    fn fmt<W: fmt::Write>(&self, f: &mut fmt::Formatter<W>) -> fmt::Result {
        match self {
            Reason::Head => write!(f, "head"),
            Reason::Form => write!(f, "form"),
            Reason::Late => write!(f, "late"),
            Reason::Name => write!(f, "name"),
            Reason::Again => write!(f, "again"),
            Reason::NotOn => write!(f, "not-on"),
            Reason::NotSent => write!(f, "not-sent"),
        }
    }
}

/// Why a script can't be read. Lines are counted from 1.
#[derive(Clone, Copy, Debug, PartialEq, Eq)]
pub enum ScriptFault {
    /// This line is the first that is refused, and why.
    Refused { line: usize, reason: Reason },
    /// The first line that can't be taken has no reason against it, but passes this limit.
    Limit(LimitName),
    /// There is no memory for the script.
    OutOfMemory,
}

impl fmt::Display for ScriptFault {
    ghost use Rattle.lab_script.specs.FaultTexts.{script_fault_text};

    ghost output = { λ fault. Some (script_fault_text fault) };

    fn fmt<W: fmt::Write>(&self, f: &mut fmt::Formatter<W>) -> fmt::Result {
        match self {
            ScriptFault::Refused { line, reason } => write!(f, "line {line} {reason}"),
            ScriptFault::Limit(which) => write!(f, "limit {which}"),
            ScriptFault::OutOfMemory => write!(f, "out of memory"),
        }
    }
}

impl Error for ScriptFault {}

impl From<AllocError> for ScriptFault {
    ghost from_gives = { λ _ fault. fault ≡ OutOfMemory };

    fn from(_error: AllocError) -> ScriptFault {
        ScriptFault::OutOfMemory
    }
}

impl<T: Drop> From<AllocFailed<T>> for ScriptFault {
    ghost from_gives = { λ _ fault. fault ≡ OutOfMemory };

    fn from(_error: AllocFailed<T>) -> ScriptFault {
        ScriptFault::OutOfMemory
    }
}

/// The answer that refuses a line.
pub(crate) fn refused<T>(line: usize, reason: Reason) -> Result<T, ScriptFault>
    ensures { result ≡ Err (ScriptFault.Refused line reason) }
{
    Err(ScriptFault::Refused { line, reason })
}

/// The answer at a limit that is passed.
pub(crate) fn limited<T>(which: LimitName) -> Result<T, ScriptFault>
    ensures { result ≡ Err (ScriptFault.Limit which) }
{
    Err(ScriptFault::Limit(which))
}
