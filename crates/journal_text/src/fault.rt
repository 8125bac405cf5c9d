//! Why a journal can't be read.
use std::error::Error;
use std::fmt;

/// Why a journal can't be read. Lines are counted from 1.
#[derive(Clone, Copy, Debug, PartialEq, Eq)]
pub enum JournalFault {
    /// This line is the first that is none of a journal whose entries are numbered from 1.
    Line { line: usize },
    /// There is no memory for the entries.
    OutOfMemory,
}

impl fmt::Display for JournalFault {
    ghost use Rattle.std.specs.Prelude.{Some};
    ghost use Rattle.journal_text.specs.FaultTexts.{journal_fault_text};

    ghost output = { λ fault. Some (journal_fault_text fault) };

    fn fmt<W: fmt::Write>(&self, f: &mut fmt::Formatter<W>) -> fmt::Result {
        match self {
            JournalFault::Line { line } => write!(f, "line {line}"),
            JournalFault::OutOfMemory => write!(f, "out of memory"),
        }
    }
}

impl Error for JournalFault {}
