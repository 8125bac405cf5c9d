//! The events of a router.
ghost use Rattle.std.specs.Prelude.{◌≡◌, IfOk};

use isis_base::OutOfMemory;
use router_desk::{Change, Opened};

/// An event of a router: a second; a datagram that a desk opened is taken; a circuit, counted from
/// 1, is asked for what is due on it; or the configuration changes.
#[derive(Drop, Debug)]
pub enum NodeEvent {
    Second,
    Take(Opened),
    Pull { circuit: u8 },
    Change(Change),
}

impl NodeEvent {
    /// An equal event.
    pub fn copy(&self) -> Result<NodeEvent, OutOfMemory>
        ensures { IfOk result (λ copy. copy ≡ self.now) }
    {
        match self {
            NodeEvent::Second => Ok(NodeEvent::Second),
            NodeEvent::Take(opened) => {
                let copy = opened.copy()?;
                Ok(NodeEvent::Take(copy))
            }
            NodeEvent::Pull { circuit } => Ok(NodeEvent::Pull { circuit: *circuit }),
            NodeEvent::Change(change) => Ok(NodeEvent::Change(*change)),
        }
    }
}
