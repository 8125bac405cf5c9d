//! Journals of a network's routers, woven.
ghost use Rattle.std.specs.Prelude.{◌≡◌, ◌<◌, [], length, map, IfOk, IfErr};
ghost use Rattle.std.specs.List.{AllByRecursion};
ghost use Rattle.model_network.specs.Networks.{Network as ModelNetwork};
ghost use Rattle.network_lab.specs.LabNets.{StandsFor};
ghost use Rattle.weave_replay.specs.Replays.{AreReplayed};
ghost use Rattle.weave.specs.Woven.{IsUnbegun, AreRows, IsWoven};
ghost use Rattle.weave.specs.Faults.{IsToldOf};
ghost use Rattle.weave.specs.Plays.{EndRounds, CanPlay, PlaysOn};

use crate::coding::code_journals;
use crate::counting::first_left;
use crate::fault::WeaveFault;
use crate::laws::coding_laws;
use crate::plans::{Plan, plans_of};
use crate::playing::play;
use crate::replaying::replay;
use crate::rows::rows_of;
use crate::schedule::Schedule;
use isis_base::OutOfMemory;
use network_lab::Network;
use std::alloc::Global;
use weave_core::laws::code_law;
use weave_core::{Track, Turn, weave_tracks};
use weave_model::laws::end_laws;
use weave_replay::WovenJournal;

/// Weaves the journals of a network's routers into one schedule of the network, in which nothing was
/// done yet but that configurations changed. The schedule goes in rounds over the routers in order,
/// each as far as it can; a delivery takes the first datagram that fits. At Ok, the network as the
/// schedule leaves it, and the schedule. At a fault the network is dropped.
pub fn weave(
    alloc: Global,
    network: Network,
    journals: &[WovenJournal],
) -> Result<(Network, Schedule), WeaveFault>
    requires there { AllByRecursion (λ j. j.router < length network.seen.routers) journals.now }
    requires begun { IsUnbegun network }
    ensures ok { IfOk result (λ woven. (net : ModelNetwork) → StandsFor net network
        → IsWoven net journals.now woven.1 woven.0) }
    ensures err { IfErr result (λ fault. (net : ModelNetwork) → StandsFor net network
        → IsToldOf net journals.now fault) }
{
    let mut network = network;
    match weave_in(alloc, &mut network, journals) {
        Ok(schedule) => Ok((network, schedule)),
        Err(fault) => {
            drop(network);
            Err(fault)
        }
    }
}

/// Weaves journals in a network.
fn weave_in(
    alloc: Global,
    network: &mut Network,
    journals: &[WovenJournal],
) -> Result<Schedule, WeaveFault>
    requires there { AllByRecursion (λ j. j.router < length network.old.seen.routers) journals.now }
    requires begun { IsUnbegun network.old }
    ensures ok { IfOk result (λ schedule. (net : ModelNetwork) → StandsFor net network.old
        → IsWoven net journals.now schedule network.new) }
    ensures err { IfErr result (λ fault. (net : ModelNetwork) → StandsFor net network.old
        → IsToldOf net journals.now fault) }
{
    match replay(alloc, network, journals) {
        Ok(()) => {}
        Err(fault) => return Err(fault),
    }
    match rows_of(alloc, network) {
        Ok(rows) => weave_by(alloc, network, &rows, journals),
        Err(_) => Err(WeaveFault::OutOfMemory),
    }
}

/// Weaves journals that replay, by the links of each router's circuits.
fn weave_by(
    alloc: Global,
    network: &mut Network,
    rows: &[Vec<usize>],
    journals: &[WovenJournal],
) -> Result<Schedule, WeaveFault>
    requires there { AllByRecursion (λ j. j.router < length network.old.seen.routers) journals.now }
    requires begun { IsUnbegun network.old }
    requires replayed { AreReplayed network.old.seen.routers journals.now }
    requires rows { AreRows network.old.seen.routers network.old.seen.links
        (map (λ row. row.items) rows.now) }
    ensures ok { IfOk result (λ schedule. (net : ModelNetwork) → StandsFor net network.old
        → IsWoven net journals.now schedule network.new) }
    ensures err { IfErr result (λ fault. (net : ModelNetwork) → StandsFor net network.old
        → IsToldOf net journals.now fault) }
{
    coding_laws();
    let mut tracks = match code_journals(alloc, rows, journals) {
        Ok(tracks) => tracks,
        Err(_) => return Err(WeaveFault::OutOfMemory),
    };
    match weave_tracks(alloc, &mut tracks) {
        Ok(medium) => finish(alloc, network, &tracks, medium.turns(), journals),
        Err(_) => Err(WeaveFault::OutOfMemory),
    }
}

/// Plays the turns of rounds, where they leave nothing; else tells the first entry that they leave.
fn finish(
    alloc: Global,
    network: &mut Network,
    left: &[Track],
    turns: &[Turn],
    journals: &[WovenJournal],
) -> Result<Schedule, WeaveFault>
    requires there { AllByRecursion (λ j. j.router < length network.old.seen.routers) journals.now }
    requires begun { IsUnbegun network.old }
    requires rounds { EndRounds network.old.seen journals.now left.now turns.now }
    ensures ok { IfOk result (λ schedule. (net : ModelNetwork) → StandsFor net network.old
        → IsWoven net journals.now schedule network.new) }
    ensures err { IfErr result (λ fault. (net : ModelNetwork) → StandsFor net network.old
        → IsToldOf net journals.now fault) }
{
    code_law();
    coding_laws();
    end_laws();
    network.facts();
    let mut plans = match plans_of(alloc, network.routers(), journals) {
        Ok(plans) => plans,
        Err(_) => return Err(WeaveFault::OutOfMemory),
    };
    match first_left(alloc, &plans, left, journals) {
        Ok(None) => match play_all(alloc, network, &mut plans, turns) {
            Ok(schedule) => Ok(schedule),
            Err(_) => Err(WeaveFault::OutOfMemory),
        },
        Ok(Some((journal, entry))) => Err(WeaveFault::Stuck { journal, entry }),
        Err(_) => Err(WeaveFault::OutOfMemory),
    }
}

/// Plays turns in the network; the schedule of their events.
fn play_all(
    alloc: Global,
    network: &mut Network,
    plans: &mut [Plan<'_>],
    turns: &[Turn],
) -> Result<Schedule, OutOfMemory>
    requires { CanPlay [] turns.now plans.old network.old }
    ensures { IfOk result (λ schedule. PlaysOn [] turns.now plans.old network.old
        schedule [] plans.new network.new) }
{
    let mut schedule = Schedule::new(alloc);
    match play(network, plans, &mut schedule, turns) {
        Ok(()) => Ok(schedule),
        Err(error) => {
            drop(schedule);
            Err(error)
        }
    }
}
