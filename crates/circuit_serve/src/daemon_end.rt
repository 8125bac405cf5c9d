//! How a daemon ends.
ghost use Rattle.std.specs.Prelude.{◌≡◌};
ghost use Rattle.circuit_serve.specs.DaemonEnds as ends;

use crate::ServeEnd;

/// How a daemon ends.
#[derive(Clone, Copy, PartialEq, Eq, Debug)]
pub enum DaemonEnd {
    /// All its seconds and turns were made, and its journal is whole.
    Done,
    /// A port couldn't be opened, or a thread wasn't started.
    NotStarted,
    /// The journal couldn't be written. A prefix of it was.
    WriteFault,
    /// There was no memory. A prefix of the journal was written.
    OutOfMemory,
}

/// How a daemon ends whose router was served so.
pub(crate) fn end_of(end: ServeEnd) -> DaemonEnd
    ensures { result ≡ ends.end_of end }
{
    match end {
        ServeEnd::Done => DaemonEnd::Done,
        ServeEnd::NotStarted => DaemonEnd::NotStarted,
        ServeEnd::Journal { entry: _ } => DaemonEnd::WriteFault,
        ServeEnd::OutOfMemory => DaemonEnd::OutOfMemory,
    }
}
