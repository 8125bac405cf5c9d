//! Why no state was written.
ghost use Rattle.std.specs.Prelude.{◌≡◌, Some};
ghost use Rattle.state_replay.specs.Faults.{state_fault_text, line_fault, no_memory};

use daemon_config::{ConfigKey, ConfigKind};
use isis_base::OutOfMemory;
use line_source::LineFault;
use std::error::Error;
use std::fmt;

/// Why the state of a router wasn't written. Lines are counted in the whole input and entries in the journal, both from 1.
#[derive(Clone, Copy, Debug, PartialEq, Eq)]
pub enum StateFault {
    /// A read of the input failed.
    Read,
    /// A line, or the configuration, has more than 16,777,216 octets.
    TooLong,
    /// The input ends in this line, and no line before it is a journal's head.
    Head { line: u64 },
    /// The configuration is refused for this, at this key.
    Config { kind: ConfigKind, key: ConfigKey },
    /// This line is none of such a journal.
    Form { line: u64 },
    /// The first entry with a fault has a circuit that isn't there, or a value that is out of its limits.
    Event { entry: u64 },
    /// The first entry with a fault has another reply than the router answers.
    Reply { entry: u64 },
    /// A write failed. A prefix of the text was written.
    Write,
    /// There is no memory for it.
    OutOfMemory,
}

impl fmt::Display for StateFault {
    ghost output = { λ fault. Some (state_fault_text fault) };

    fn fmt<W: fmt::Write>(&self, f: &mut fmt::Formatter<W>) -> fmt::Result {
        match self {
            StateFault::Read => write!(f, "read fault"),
            StateFault::TooLong => write!(f, "input too long"),
            StateFault::Head { line } => write!(f, "line {line} head"),
            StateFault::Config { kind, key } => write!(f, "config {kind} {key}"),
            StateFault::Form { line } => write!(f, "line {line} form"),
            StateFault::Event { entry } => write!(f, "journal 1 entry {entry} event"),
            StateFault::Reply { entry } => write!(f, "journal 1 entry {entry} reply"),
            StateFault::Write => write!(f, "write fault"),
            StateFault::OutOfMemory => write!(f, "out of memory"),
        }
    }
}

impl Error for StateFault {}

impl From<OutOfMemory> for StateFault {
    ghost from_gives = { λ _ fault. fault ≡ no_memory };

    fn from(_error: OutOfMemory) -> StateFault {
        StateFault::OutOfMemory
    }
}

impl From<LineFault> for StateFault {
    ghost from_gives = { λ error fault. fault ≡ line_fault error };

    fn from(error: LineFault) -> StateFault {
        match error {
            LineFault::Read => StateFault::Read,
            LineFault::TooLong => StateFault::TooLong,
            LineFault::OutOfMemory => StateFault::OutOfMemory,
        }
    }
}
