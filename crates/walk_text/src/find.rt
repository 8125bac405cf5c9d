//! The walk after a script, or why there is none.
ghost use Rattle.std.specs.Prelude.{◌≡◌, ◌<◌, true, length};
ghost use Rattle.lab_script.specs.Scripts.{is_lab_script, names_in};
ghost use Rattle.walk_text.specs.Walks.{Finds};
ghost use Rattle.walk_text.specs.Found.{FindsIn, FindsFrom};

use crate::fault::WalkFault;
use crate::reason::{WalkReason, reason_of};
use crate::{Walked, forward};
use isis_base::Prefix;
use lab_text::{Network, Script, play_script};
use std::alloc::Global;

/// The walk to a prefix from the router of this name, over the routers at a script's end.
pub(crate) fn find_walk(
    alloc: Global,
    script: &Script<'_>,
    name: &str,
    prefix: Prefix,
) -> Result<Walked, WalkFault>
    ensures { Finds script.now name.now prefix result }
{
    if !script.is_lab() {
        return Err(WalkFault::NoWalk(WalkReason::Keys));
    }
    let Some(from) = script.router(name) else {
        return Err(WalkFault::NoWalk(WalkReason::Name));
    };
    find_from(alloc, script, from, prefix)
}

/// The walk from the router of this number.
fn find_from(
    alloc: Global,
    script: &Script<'_>,
    from: usize,
    prefix: Prefix,
) -> Result<Walked, WalkFault>
    requires lab { is_lab_script script.now ≡ true }
    requires there { from < length (names_in script.now) }
    ensures { FindsFrom script.now from prefix result }
{
    let net = match play_script(alloc, script) {
        Ok(net) => net,
        Err(fault) => return Err(WalkFault::from(fault)),
    };
    let found = find_in(alloc, &net, from, prefix);
    drop(net);
    found
}

/// The walk over the routers of a network.
fn find_in(alloc: Global, net: &Network, from: usize, prefix: Prefix) -> Result<Walked, WalkFault>
    requires { from < length net.now.seen.routers }
    ensures { FindsIn net.now.seen.routers from prefix result }
{
    match forward(alloc, net, from, prefix) {
        Ok(walked) => Ok(walked),
        Err(fault) => match reason_of(fault) {
            Some(reason) => Err(WalkFault::NoWalk(reason)),
            None => Err(WalkFault::OutOfMemory),
        },
    }
}
