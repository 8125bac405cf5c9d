//! How far the routers of a level agree.
ghost use Rattle.std.specs.Prelude.{◌≡◌, ◌<◌, ◌≤◌, length, IfOk};
ghost use Rattle.std.specs.List.{list_any};
ghost use Rattle.network_lab.specs.LinkStates as state;
ghost use Rattle.timeline_text.specs.Agreements as agree;

use crate::flags::all_flags;
use isis_base::{Level, OutOfMemory};
use network_lab::Network;

/// How far the routers of a level agree: how many groups they are, as in a report, and how many SRM flags they have.
#[derive(Clone, Copy)]
pub(crate) struct Agreement {
    pub(crate) groups: usize,
    pub(crate) flags: u64,
}

/// How far the routers of a level agree; `None` exactly where none runs it.
pub(crate) fn agreement_at(
    network: &Network,
    level: Level,
) -> Result<Option<Agreement>, OutOfMemory>
    requires { length network.now.seen.routers ≤ 1024 }
    ensures { IfOk result (λ agreement. agreement ≡ agree.agreement_at network.now.seen level) }
{
    if !is_run(network, level) {
        return Ok(None);
    }
    let groups = network.agreed(level)?;
    Ok(Some(Agreement {
        groups: groups.len(),
        flags: all_flags(network, level),
    }))
}

/// Whether a router runs a level.
fn is_run(network: &Network, level: Level) -> bool
    ensures { result ≡ list_any (λ runs. runs) (state.runs_of network.now.seen.routers level) }
{
    for router in 0..network.routers() {
        if runs_at(network, router, level) {
            return true;
        }
    }
    false
}

/// Whether the router of a number runs a level.
fn runs_at(network: &Network, router: usize, level: Level) -> bool
    requires { router < length network.now.seen.routers }
    ensures { result ≡ state.runs_at network.now.seen.routers router level }
{
    network.router(router).book(level).is_some()
}
