//! The network at the end of a lab script.
ghost use Rattle.std.specs.Prelude.{◌≡◌, true, IfOk, OnOk};
ghost use Rattle.lab_script.specs.Scripts.{is_lab_script};
ghost use Rattle.lab_text.specs.Claimed.{IsClaimedScript};
ghost use Rattle.lab_text.specs.Playing.{IsPlayed, IsLaidBy};

use crate::event_lines::play;
use crate::fault::RunFault;
use lab_script::Script;
use network_lab::Network;
use std::alloc::Global;

/// The network at the end of a lab script. The first line whose event is refused, or which passes a
/// limit, is told as `run_script` tells it; nothing is written, so `RunFault::Write` never comes. At
/// Ok the claims held after each event of the script, where nothing was injected (ISO 10589 7.3.17):
/// those on links, on the groups that agree, on members of LANs and those that sweep them, and on the
/// contents that are held under one number, as `run_script` says them.
pub fn play_script(alloc: Global, script: &Script<'_>) -> Result<Network, RunFault>
    requires lab { is_lab_script script.now ≡ true }
    ensures value { IsPlayed script.now result }
    ensures laid { IfOk result (λ net. IsLaidBy script.now net.seen) }
    ensures claimed { OnOk result (IsClaimedScript script.now) }
{
    match script {
        Script::Lab(lab) => match play(alloc, lab) {
            Ok(net) => Ok(net),
            Err(fault) => Err(RunFault::from(fault)),
        },
        Script::Keys(_) => unreachable!(),
    }
}
