//! What becomes of packets to an address from each router.
ghost use Rattle.std.specs.Prelude.{◌≡◌, ◌<◌, ◌^◌, List, length, IfOk};
ghost use Rattle.model_network.specs.RunLines as run;
ghost use Rattle.trace_text.specs.Forwarders.{AreForwarders};
ghost use Rattle.packet_trace.specs.Steps.{steps_at};
ghost use Rattle.packet_trace.specs.declared.forwarder.Forwarder.{Forwarder as ForwarderOf};
ghost use Rattle.timeline_text.specs.Fates as fate;

use crate::flags::one_if;
use isis_base::OutOfMemory;
use network_lab::Network;
use packet_trace::Forwarder;
use packet_trace::parts::Packets;
use std::alloc::Global;
use trace_core::{Outcomes, Step, Ways, whichever};
use trace_text::parts::forwarders_of;

/// From how many routers a packet arrives whichever next hops it takes, may loop, and may be lost.
#[derive(Clone, Copy)]
pub(crate) struct Counts {
    pub(crate) arrive: u64,
    pub(crate) loops: u64,
    pub(crate) lost: u64,
}

/// Of no router.
pub(crate) const NONE: Counts = Counts {
    arrive: 0,
    loops: 0,
    lost: 0,
};

/// Packets over routers of which one may hand nothing on.
#[derive(Drop)]
struct Heard<'a> {
    packets: Packets<'a>,
    except: Option<usize>,
}

impl<'a> Ways for Heard<'a> {
    ghost many = { λ h. length h.packets.forwarders.now };

    ghost ways = { λ h. fate.steps_where h.except
        (steps_at h.packets.forwarders.now h.packets.address) };

    fn count(&self, place: usize) -> usize {
        if is_excepted(self.except, place) {
            return 1;
        }
        self.packets.count(place)
    }

    fn way(&self, place: usize, number: usize) -> Step {
        if is_excepted(self.except, place) {
            return Step::Lost;
        }
        self.packets.way(place, number)
    }
}

/// The counts over the routers of a network, of which one may be excepted.
pub(crate) fn count_fates(
    alloc: Global,
    network: &Network,
    address: u32,
    except: Option<usize>,
) -> Result<Counts, OutOfMemory>
    ensures { IfOk result (λ counts. (forwarders : List ForwarderOf)
        × AreForwarders network.now.seen.routers forwarders
        × fate.AreCounted forwarders address except counts) }
{
    let forwarders = forwarders_of(alloc, network)?;
    count_each(alloc, forwarders.as_slice(), address, except)
}

/// The counts over routers as packets meet them.
fn count_each(
    alloc: Global,
    forwarders: &[Forwarder],
    address: u32,
    except: Option<usize>,
) -> Result<Counts, OutOfMemory>
    ensures { IfOk result (λ counts. fate.AreCounted forwarders.now address except counts) }
{
    let heard = Heard {
        packets: Packets {
            forwarders,
            address,
        },
        except,
    };
    let mut counts = NONE;
    for place in 0..forwarders.len() {
        match whichever(alloc, &heard, place) {
            Ok(found) => counts = with_fate(counts, is_excepted(except, place), found),
            Err(_) => return Err(OutOfMemory),
        }
    }
    Ok(counts)
}

/// Whether a router is excepted.
fn is_excepted(except: Option<usize>, place: usize) -> bool
    ensures { result ≡ run.is_excepted except place }
{
    match except {
        Some(other) => other == place,
        None => false,
    }
}

/// The counts with one router more, unless it is excepted.
fn with_fate(counts: Counts, excepted: bool, found: Outcomes) -> Counts
    requires arrive { counts.arrive < 2 ^ 63 }
    requires loops { counts.loops < 2 ^ 63 }
    requires lost { counts.lost < 2 ^ 63 }
    ensures { result ≡ fate.with_fate counts excepted found }
{
    Counts {
        arrive: counts.arrive + one_if(only_arrives(found) && !excepted),
        loops: counts.loops + one_if(found.loops && !excepted),
        lost: counts.lost + one_if(found.lost && !excepted),
    }
}

/// Whether a packet arrives, whichever next hops it takes.
fn only_arrives(found: Outcomes) -> bool
    ensures { result ≡ fate.only_arrives found }
{
    found.arrives && (!found.loops && !found.lost)
}
