//! Schedules.
ghost use Rattle.std.specs.Prelude.{◌≡◌, ◌∷◌, [], ◌++◌, length, OnOk};
ghost use Rattle.std.specs.Option.{option_copied};
ghost use Rattle.model_router.specs.Places.{nth};

use isis_base::OutOfMemory;
use network_lab::LabEvent;
use std::alloc::Global;
use std::marker::Model;

/// The events of a network of routers, in order. Contracts see the list.
#[derive(Drop, Debug)]
pub struct Schedule {
    events: Vec<LabEvent>,
}

impl Model for Schedule {
    ghost use Rattle.std.specs.Prelude.{List};
    ghost use Rattle.network_lab.specs.declared.event.LabEvent.{LabEvent as Event};

    ghost Value = { List Event };

    ghost view = { λ s. s.events.items };
}

impl Schedule {
    /// No event. It takes no memory.
    pub(crate) fn new(alloc: Global) -> Schedule
        ensures { result ≡ [] }
    {
        Schedule {
            events: Vec::new(alloc),
        }
    }

    /// An event more, at the end.
    pub(crate) fn push(&mut self, event: LabEvent) -> Result<(), OutOfMemory>
        ensures { OnOk result (self.new ≡ self.old ++ event ∷ []) }
    {
        self.events.push(event)?;
        Ok(())
    }

    /// The number of events.
    pub fn len(&self) -> usize
        ensures { result ≡ length self.now }
    {
        self.events.len()
    }

    /// The event at a place, counted from 0; `None` exactly where the place isn't below `len`.
    pub fn get(&self, place: usize) -> Option<&LabEvent>
        ensures { option_copied result ≡ nth self.now place }
    {
        self.events.get(place)
    }
}
