//! Configurations with the changes of a run.
ghost use Rattle.std.specs.Prelude.{◌≡◌, ◌-◌, ◌++◌, ◌∷◌, ◌&&◌, ◌==◌, List, ℕ, OnOk, IfOk};
ghost use Rattle.isis_base.specs.declared.prefix.Prefix.{Prefix as APrefix};
ghost use Rattle.model_router.specs.Places.{nth};
ghost use Rattle.network_lab.specs.LabNets.{at_circuit};
ghost use Rattle.network_lab.specs.LabConfigs as after;
ghost use Rattle.network_lab.specs.LabConfigs.{config_after};

use crate::setup::replaced;
use isis_base::{OutOfMemory, Prefix};
use router_desk::{Change, Config, Prefixes};
use std::alloc::Global;

/// A configuration after a change.
pub(crate) fn changed(alloc: Global, config: &Config, change: Change) -> Result<Config, OutOfMemory>
    ensures { IfOk result (λ new. new ≡ config_after change config.now) }
{
    let mut copy = config.copy()?;
    match change {
        Change::Metric { circuit, metric } => {
            let place = usize::from(circuit.saturating_sub(1));
            set_metric(alloc, &mut copy, place, metric)?;
        }
        Change::Prefix { prefix, metric } => set_prefix(alloc, &mut copy, prefix, metric)?,
        Change::Overload { on } => copy.overload = on,
    }
    Ok(copy)
}

/// Another metric of the circuit at a place.
fn set_metric(
    alloc: Global,
    config: &mut Config,
    place: usize,
    metric: u32,
) -> Result<(), OutOfMemory>
    ensures { OnOk result (config.new ≡ record config.old {
      circuits = at_circuit (λ c. record c { metric = metric }) place config.old.circuits
          (nth config.old.circuits place);
    }) }
{
    if place >= config.circuits.len() {
        return Ok(());
    }
    let mut circuit = config.circuits.as_slice()[place].copy()?;
    circuit.metric = metric;
    config.circuits = replaced(alloc, &config.circuits, place, &circuit)?;
    Ok(())
}

/// A prefix of its own with a metric, or without it no more.
fn set_prefix(
    alloc: Global,
    config: &mut Config,
    prefix: Prefix,
    metric: Option<u32>,
) -> Result<(), OutOfMemory>
    ensures { OnOk result (config.new ≡ record config.old {
      prefixes = after.prefixes_without prefix config.old.prefixes
          ++ after.with_metric_of prefix metric;
    }) }
{
    let mut kept = without(alloc, config.prefixes.as_slice(), prefix)?;
    add_metric(&mut kept, prefix, metric)?;
    config.prefixes = kept;
    Ok(())
}

/// Adds a prefix, where it has a metric.
fn add_metric(kept: &mut Prefixes, prefix: Prefix, metric: Option<u32>) -> Result<(), OutOfMemory>
    ensures { OnOk result (kept.new ≡ kept.old ++ after.with_metric_of prefix metric) }
{
    match metric {
        Some(metric) => kept.push((prefix, metric)),
        None => Ok(()),
    }
}

/// Prefixes without one.
fn without(
    alloc: Global,
    prefixes: &[(Prefix, u32)],
    prefix: Prefix,
) -> Result<Prefixes, OutOfMemory>
    ensures { IfOk result (λ kept. kept ≡ after.prefixes_without prefix prefixes.now) }
{
    let mut kept = Prefixes::new(alloc);
    for own in prefixes {
        match keep_unless(&mut kept, *own, prefix) {
            Ok(()) => {}
            Err(error) => return Err(error),
        }
    }
    Ok(kept)
}

/// Keeps a prefix, unless it is the one that goes.
fn keep_unless(kept: &mut Prefixes, own: (Prefix, u32), gone: Prefix) -> Result<(), OutOfMemory>
    ensures { OnOk result ((more : List (APrefix × ℕ))
        → kept.new ++ after.prefixes_without gone more
        ≡ kept.old ++ after.prefixes_without gone (own ∷ more)) }
{
    if is_same(own.0, gone) {
        return Ok(());
    }
    kept.push(own)
}

/// Whether two prefixes are the same.
fn is_same(a: Prefix, b: Prefix) -> bool
    ensures { result ≡ (a.address == b.address && a.length == b.length) }
{
    a.address() == b.address() && a.length() == b.length()
}
