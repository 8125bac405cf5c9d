//! What a router answers.
ghost use Rattle.std.specs.Prelude.{◌≡◌, IfOk};

use crate::datagrams::Datagrams;
use isis_base::OutOfMemory;
use router_desk::DropCause;

/// What a router answers to an event: it was done; the datagram was dropped, and why; or it is done
/// and these datagrams are sent on the event's circuit.
#[derive(Drop, Debug)]
pub enum Reply {
    Done,
    Dropped(DropCause),
    Send(Datagrams),
}

impl Reply {
    /// An equal answer.
    pub fn copy(&self) -> Result<Reply, OutOfMemory>
        ensures { IfOk result (λ copy. copy ≡ self.now) }
    {
        match self {
            Reply::Done => Ok(Reply::Done),
            Reply::Dropped(cause) => Ok(Reply::Dropped(*cause)),
            Reply::Send(datagrams) => {
                let copy = datagrams.copy()?;
                Ok(Reply::Send(copy))
            }
        }
    }
}
