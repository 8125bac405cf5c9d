//! Turns as events of the network.
ghost use Rattle.std.specs.Prelude.{◌≡◌, ◌<◌, ◌∷◌, [], List, length, true, OnOk, IfOk};
ghost use Rattle.network_lab.specs.LabEvents.{IsEvent};
ghost use Rattle.weave_core.specs.declared.moves.Turn as core;
ghost use Rattle.weave_model.specs.Weavings.{Does};
ghost use Rattle.weave_replay.specs.Entries.{entry_of};
ghost use Rattle.weave.specs.Moves.{move_of};
ghost use Rattle.weave.specs.Woven.{happenings_of};
ghost use Rattle.weave.specs.Plays.{IsNext, IsEventOf, HasHappened, CanPlay, CanTurn, PlaysOn};

use crate::plans::Plan;
use crate::schedule::Schedule;
use crate::step::Step;
use isis_base::OutOfMemory;
use journal_text::{WovenEntry, WovenEvent};
use network_lab::{LabEvent, Network};
use weave_core::Turn;

/// Plays turns in the network, each with the next step of its router. They join the schedule.
pub(crate) fn play(
    network: &mut Network,
    plans: &mut [Plan<'_>],
    schedule: &mut Schedule,
    turns: &[Turn],
) -> Result<(), OutOfMemory>
    requires { CanPlay (happenings_of schedule.old) turns.now plans.old network.old }
    ensures { OnOk result (PlaysOn schedule.old turns.now plans.old network.old
        schedule.new [] plans.new network.new) }
{
    for place in 0..turns.len() {
        match play_turn(network, plans, schedule, &turns[place]) {
            Ok(()) => {}
            Err(error) => return Err(error),
        }
    }
    Ok(())
}

/// Plays a turn.
fn play_turn(
    network: &mut Network,
    plans: &mut [Plan<'_>],
    schedule: &mut Schedule,
    turn: &Turn,
) -> Result<(), OutOfMemory>
    requires { CanTurn turn.now plans.old network.old }
    ensures { OnOk result ((more : List core.Turn) → PlaysOn schedule.old (turn.now ∷ more)
        plans.old network.old schedule.new more plans.new network.new) }
{
    network.facts();
    let step = plans[turn.party].take_step();
    happen(network, schedule, turn.party, &step, turn.taken)
}

/// A step of a router happens in the network, and joins the schedule.
fn happen(
    network: &mut Network,
    schedule: &mut Schedule,
    router: usize,
    step: &Step<'_>,
    taken: Option<usize>,
) -> Result<(), OutOfMemory>
    requires { IsNext network.old.seen router (move_of step.now) }
    ensures { OnOk result (HasHappened network.old router (move_of step.now) taken
        schedule.old schedule.new network.new) }
{
    match schedule.push(event_of(network, router, step, taken)) {
        Ok(()) => {}
        Err(error) => return Err(error),
    }
    match network.apply(event_of(network, router, step, taken)) {
        Ok(()) => Ok(()),
        // Nothing else can come. The event is a move of a front, so it isn't refused; replaying
        // told when the replies send too many datagrams; and no run that was stopped comes here.
        Err(_) => Err(OutOfMemory),
    }
}

/// The event that is a step of a router, in a turn that takes this.
fn event_of(network: &Network, router: usize, step: &Step<'_>, taken: Option<usize>) -> LabEvent
    requires { IsNext network.now.seen router (move_of step.now) }
    ensures there { IsEvent network.now.seen result }
    ensures event { IsEventOf network.now router (move_of step.now) taken result }
{
    match step {
        Step::Restart => LabEvent::Restart { router },
        Step::Entry(entry) => event_for(network, router, entry, taken),
    }
}

/// The event that is an entry of a router.
fn event_for(network: &Network, router: usize, entry: &WovenEntry, taken: Option<usize>) -> LabEvent
    requires { IsNext network.now.seen router (Does (entry_of entry.now)) }
    ensures there { IsEvent network.now.seen result }
    ensures event { IsEventOf network.now router (Does (entry_of entry.now)) taken result }
{
    network.facts();
    match &entry.event {
        WovenEvent::Second => LabEvent::Tick { router },
        // a take's turn has a number
        WovenEvent::Take { .. } => LabEvent::Deliver {
            datagram: taken.unwrap_or(0),
            router,
        },
        WovenEvent::Pull { circuit } => LabEvent::Pull {
            router,
            link: network.ports(router)[usize::from(*circuit) - 1],
        },
        WovenEvent::Change(change) => LabEvent::Change {
            router,
            change: *change,
        },
    }
}
