//! What is counted at a moment.
ghost use Rattle.std.specs.Prelude.{◌≤◌, length, IfOk};
ghost use Rattle.timeline_text.specs.Tallies.{IsTallyOf};

use crate::agreements::{Agreement, agreement_at};
use crate::fates::{Counts, count_fates};
use isis_base::{Level, OutOfMemory};
use network_lab::Network;
use std::alloc::Global;

/// What is counted of a network: who agrees at each level that a router runs; and from how many routers a packet arrives
/// whichever next hops it takes, may loop, or may be lost.
#[derive(Clone, Copy)]
pub(crate) struct Tally {
    pub(crate) one: Option<Agreement>,
    pub(crate) two: Option<Agreement>,
    pub(crate) counts: Counts,
}

/// What is counted of a network for packets to an address, where a line `run` excepts a router: it isn't counted, and hands
/// nothing on.
pub(crate) fn tally_of(
    alloc: Global,
    network: &Network,
    address: u32,
    except: Option<usize>,
) -> Result<Tally, OutOfMemory>
    requires { length network.now.seen.routers ≤ 1024 }
    ensures { IfOk result (λ tally. IsTallyOf network.now.seen address except tally) }
{
    let counts = count_fates(alloc, network, address, except)?;
    let one = agreement_at(network, Level::One)?;
    let two = agreement_at(network, Level::Two)?;
    Ok(Tally { one, two, counts })
}
