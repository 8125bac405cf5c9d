//! Why no line was read.
use isis_base::OutOfMemory;
use std::error::Error;
use std::fmt;

/// Why no line was read.
#[derive(Clone, Copy, Debug, PartialEq, Eq)]
pub enum LineFault {
    /// A read failed.
    Read,
    /// The line has more than 16,777,216 octets.
    TooLong,
    /// There is no memory for the line.
    OutOfMemory,
}

impl fmt::Display for LineFault {
    ghost use Rattle.std.specs.Prelude.{Some};
    ghost use Rattle.line_source.specs.Faults.{line_fault_text};

    ghost output = { λ fault. Some (line_fault_text fault) };

    fn fmt<W: fmt::Write>(&self, f: &mut fmt::Formatter<W>) -> fmt::Result {
        match self {
            LineFault::Read => write!(f, "read fault"),
            LineFault::TooLong => write!(f, "line too long"),
            LineFault::OutOfMemory => write!(f, "out of memory"),
        }
    }
}

impl Error for LineFault {}

impl From<OutOfMemory> for LineFault {
    ghost use Rattle.std.specs.Prelude.{◌≡◌};
    ghost use Rattle.line_source.specs.declared.fault.LineFault.{LineFault};

    ghost from_gives = { λ _ fault. fault ≡ LineFault.OutOfMemory };

    fn from(_error: OutOfMemory) -> LineFault {
        LineFault::OutOfMemory
    }
}
