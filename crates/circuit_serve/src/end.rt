//! How `serve` ends.
ghost use Rattle.std.specs.Prelude.{◌≡◌};
ghost use Rattle.circuit_serve.specs.Ends as ends;

use circuit_threads::SubmitFault;
use daemon_edge::Started;

/// How `serve` ends.
#[derive(Clone, Copy, PartialEq, Eq, Debug)]
pub enum ServeEnd {
    Done,
    NotStarted,
    Journal { entry: u64 },
    OutOfMemory,
}

/// How a worker's run ended.
pub fn end_of(fault: Option<SubmitFault>) -> ServeEnd
    ensures { result ≡ ends.end_of fault }
{
    match fault {
        None => ServeEnd::Done,
        Some(SubmitFault::OutOfMemory) => ServeEnd::OutOfMemory,
        Some(SubmitFault::JournalFault(receipt)) => ServeEnd::Journal {
            entry: receipt.entry,
        },
        Some(SubmitFault::Stopped { entry }) => ServeEnd::Journal { entry },
    }
}

/// How the starts of all workers ended.
pub fn end_of_start(started: Started) -> ServeEnd
    ensures { result ≡ ends.end_of_start started }
{
    match started {
        Started::All => ServeEnd::Done,
        Started::Refused => ServeEnd::NotStarted,
        Started::OutOfMemory => ServeEnd::OutOfMemory,
    }
}

/// Of two ends the one that is answered.
pub fn first_end(one: ServeEnd, two: ServeEnd) -> ServeEnd
    ensures { result ≡ ends.first_end one two }
{
    match one {
        ServeEnd::NotStarted => one,
        ServeEnd::Journal { entry: _ } => match two {
            ServeEnd::NotStarted => two,
            ServeEnd::Journal { entry: _ } | ServeEnd::OutOfMemory | ServeEnd::Done => one,
        },
        ServeEnd::OutOfMemory => match two {
            ServeEnd::NotStarted | ServeEnd::Journal { entry: _ } => two,
            ServeEnd::OutOfMemory | ServeEnd::Done => one,
        },
        ServeEnd::Done => two,
    }
}
