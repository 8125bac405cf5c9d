//! Journals replayed by copies of a network's routers.
ghost use Rattle.std.specs.Prelude.{◌≡◌, ◌<◌, ◌∷◌, [], ◌++◌, List, length, IfOk, IfErr, OnOk};
ghost use Rattle.std.specs.List.{AllByRecursion};
ghost use Rattle.model_network.specs.Networks.{Network as ModelNetwork};
ghost use Rattle.network_lab.specs.LabNets.{StandsFor};
ghost use Rattle.weave_replay.specs.declared.journal.WovenJournal as woven;
ghost use Rattle.weave_replay.specs.Replays.{IsTold, AreReplayed};
ghost use Rattle.weave.specs.Woven.{IsUnbegun};
ghost use Rattle.weave.specs.Faults.{IsToldOf};

use crate::fault::WeaveFault;
use isis_base::OutOfMemory;
use network_lab::Network;
use router_core::Router;
use std::alloc::Global;
use weave_replay::{ReplayFault, WovenJournal, replay_journals};

/// Replays journals by copies of a network's routers.
pub(crate) fn replay(
    alloc: Global,
    network: &Network,
    journals: &[WovenJournal],
) -> Result<(), WeaveFault>
    requires there { AllByRecursion (λ j. j.router < length network.now.seen.routers) journals.now }
    requires begun { IsUnbegun network.now }
    ensures ok { OnOk result (AreReplayed network.now.seen.routers journals.now) }
    ensures err { IfErr result (λ fault. (net : ModelNetwork) → StandsFor net network.now
        → IsToldOf net journals.now fault) }
{
    match copies_of(alloc, network) {
        Ok(routers) => {
            let mut routers = routers;
            let replayed = replay_journals(alloc, &mut routers, journals);
            drop(routers);
            match replayed {
                Ok(()) => Ok(()),
                Err(fault) => Err(fault_of(fault)),
            }
        }
        Err(_) => Err(WeaveFault::OutOfMemory),
    }
}

/// Copies of a network's routers, of which each is where its first boot opens.
fn copies_of(alloc: Global, network: &Network) -> Result<Vec<Router>, OutOfMemory>
    requires { IsUnbegun network.now }
    ensures { IfOk result (λ routers. routers.items ≡ network.now.seen.routers) }
{
    let mut routers = Vec::new(alloc);
    for router in 0..network.routers() {
        match network.router(router).restarted(1) {
            Ok(copy) => match add(&mut routers, copy) {
                Ok(()) => {}
                Err(error) => return Err(error),
            },
            Err(error) => return Err(error),
        }
    }
    Ok(routers)
}

/// Adds a value to a list.
fn add<T: Drop>(list: &mut Vec<T>, value: T) -> Result<(), OutOfMemory>
    ensures { OnOk result (list.new.items ≡ list.old.items ++ value ∷ []) }
{
    list.push(value)?;
    Ok(())
}

/// What is told of weaving where this is told of replaying.
fn fault_of(fault: ReplayFault) -> WeaveFault
    ensures { (net : ModelNetwork) (journals : List woven.WovenJournal)
        → IsTold net.routers journals fault → IsToldOf net journals result }
{
    match fault {
        ReplayFault::Event { journal, entry } => WeaveFault::Event { journal, entry },
        ReplayFault::Reply { journal, entry } => WeaveFault::Reply { journal, entry },
        ReplayFault::Limit(name) => WeaveFault::Limit(name),
        ReplayFault::OutOfMemory => WeaveFault::OutOfMemory,
    }
}
