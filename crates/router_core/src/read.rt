//! An event as what it says, read once.
ghost use Rattle.std.specs.Prelude.{◌≡◌, ◌-◌, IfOk, IfSome};
ghost use Rattle.model_router.specs.Good.{IsGoodMessage};
ghost use Rattle.model_router.specs.Places.{nth};
ghost use Rattle.router_desk.specs.Desks.{desk_of};
ghost use Rattle.router_desk.specs.Opening.{IsOpenedBy, message_of};
ghost use Rattle.router_core.specs.Events.{event_of, Fits, IsThere};
ghost use Rattle.router_core.specs.Machines.{FitsKind};
ghost use Rattle.router_core.specs.Reads.{event_in, FitsRead};

use crate::event::NodeEvent;
use crate::parts::Parts;
use isis_base::OutOfMemory;
use isis_base::laws::octets_law;
use model_datagram::laws::good_law;
use router_desk::heard_laws::numbered_law;
use router_desk::laws::{passed_law, reading_law};
use router_desk::{Change, DropCause, Heard, Opened, hear};

/// What an event says: a second; a circuit is asked for what is due; the configuration changes; a datagram is refused
/// by its octets, and why; or what is heard of it.
#[derive(Drop)]
pub(crate) enum Read<'a> {
    Second,
    Pull { circuit: u8 },
    Change(Change),
    Refused { circuit: u8, cause: DropCause },
    Heard { circuit: u8, heard: Heard<'a> },
}

impl Parts {
    /// What an event says.
    pub(crate) fn read<'a>(&self, event: &'a NodeEvent) -> Result<Read<'a>, OutOfMemory>
        requires { Fits self.now event.now }
        ensures says { IfOk result (λ read. event_in read ≡ event_of self.now event.now) }
        ensures fits { IfOk result (λ read. FitsRead self.now read) }
    {
        let opened = match event {
            NodeEvent::Second => return Ok(Read::Second),
            NodeEvent::Pull { circuit } => return Ok(Read::Pull { circuit: *circuit }),
            NodeEvent::Change(change) => return Ok(Read::Change(*change)),
            NodeEvent::Take(opened) => opened,
        };
        self.opened_facts(opened);
        numbered_law();
        let circuit = opened.circuit();
        match opened.seen() {
            Ok(seen) => {
                let heard = hear(self.alloc, self.desk.system(), &seen)?;
                Ok(Read::Heard { circuit, heard })
            }
            Err(cause) => Ok(Read::Refused { circuit, cause }),
        }
    }

    /// What is known of an opened datagram: its fields are good, and a hello is of its circuit's
    /// kind. It does nothing.
    fn opened_facts(&self, opened: &Opened)
        requires there { IsThere self.now opened.now.circuit }
        requires opened { IsOpenedBy (desk_of self.now.config self.now.circuits) opened.now }
        ensures good { IsGoodMessage (message_of self.now.config.system opened.now.seen) }
        ensures kind { IfSome (nth self.now.circuits (opened.now.circuit - 1))
            (λ c. FitsKind c (message_of self.now.config.system opened.now.seen)) }
    {
        good_law();
        reading_law();
        passed_law();
        octets_law(opened.octets());
    }
}
