//! Whether the event of an entry may be handed over, and the event.
ghost use Rattle.std.specs.Prelude.{◌≡◌, true, IfOk};
ghost use Rattle.router_core.specs.Events as core;
ghost use Rattle.router_core.specs.Events.{Fits};
ghost use Rattle.weave_model.specs.Entries.{event_of as event_by};
ghost use Rattle.weave_model.specs.Faults.{fits as fits_by, is_there as is_there_by};
ghost use Rattle.weave_replay.specs.Entries.{deed_of, change_deed};

use isis_base::OutOfMemory;
use isis_base::numbers::{CIRCUIT_METRIC, PREFIX_LIMIT, PREFIX_METRIC};
use journal_text::WovenEvent;
use router_core::{NodeEvent, Router};
use router_desk::Change;
use router_desk::laws::reading_law;

/// Whether an event may be handed over.
pub(crate) fn fits(router: &Router, event: &WovenEvent) -> bool
    ensures { result ≡ fits_by router.now (deed_of event.now) }
{
    match event {
        WovenEvent::Second => true,
        WovenEvent::Take { circuit, octets: _ } => is_there(router, *circuit),
        WovenEvent::Pull { circuit } => is_there(router, *circuit),
        WovenEvent::Change(change) => change_fits(router, *change),
    }
}

/// Whether there is a circuit of this number.
fn is_there(router: &Router, circuit: u8) -> bool
    ensures { result ≡ is_there_by router.now circuit }
{
    1 <= circuit && usize::from(circuit) <= router.desk().circuit_count()
}

/// Whether a change may be made.
fn change_fits(router: &Router, change: Change) -> bool
    ensures { result ≡ fits_by router.now (change_deed change) }
{
    match change {
        Change::Metric { circuit, metric } => {
            is_there(router, circuit) && metric <= CIRCUIT_METRIC
        }
        Change::Prefix { prefix, metric } => match metric {
            Some(metric) => {
                metric <= PREFIX_METRIC
                    && (router.has_prefix(prefix) || router.prefix_count() < PREFIX_LIMIT)
            }
            None => true,
        },
        Change::Overload { on: _ } => true,
    }
}

/// The event that is handed over.
pub(crate) fn event_of(router: &Router, event: &WovenEvent) -> Result<NodeEvent, OutOfMemory>
    requires { fits_by router.now (deed_of event.now) ≡ true }
    ensures event { IfOk result
        (λ node. core.event_of router.now node ≡ event_by router.now (deed_of event.now)) }
    ensures fits { IfOk result (λ node. Fits router.now node) }
{
    reading_law();
    match event {
        WovenEvent::Second => Ok(NodeEvent::Second),
        WovenEvent::Take { circuit, octets } => match octets.copy() {
            Ok(copy) => Ok(NodeEvent::Take(router.desk().open(*circuit, copy))),
            Err(error) => Err(error),
        },
        WovenEvent::Pull { circuit } => Ok(NodeEvent::Pull { circuit: *circuit }),
        WovenEvent::Change(change) => Ok(NodeEvent::Change(*change)),
    }
}
