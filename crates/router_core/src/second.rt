//! A second of a router.
ghost use Rattle.std.specs.Prelude.{◌≡◌, ◌≤◌, length, map, IfOk, OnErr, OnOk};
ghost use Rattle.std.specs.List.{AllByRecursion, list_any};
ghost use Rattle.model_router.specs.Configs.{Config};
ghost use Rattle.model_router.specs.Elections as elections;
ghost use Rattle.model_router.specs.Events as model;
ghost use Rattle.model_router.specs.Seconds.{time_over};
ghost use Rattle.model_router.specs.Steps.{step};
ghost use Rattle.model_router.specs.Numbers.{system_number};
ghost use Rattle.router_desk.specs.Desks.{desk_circuit};
ghost use Rattle.router_core.specs.Givens.{given};
ghost use Rattle.router_core.specs.Machines.{IsFit};
ghost use Rattle.router_core.specs.Plans.{IsSecondReady};
ghost use Rattle.router_core.specs.Seconds.{bare_later, later, seen_then};
ghost use Rattle.router_core.specs.Settled.{faces};

use crate::at::{idle_at, second_at};
use crate::parts::Parts;
use crate::passing::{pass, ready_to_pass};
use crate::wanted::key_of;
use isis_base::{Level, OutOfMemory, SystemId};
use router_circuits::Circuit;
use router_levels::Wants;
use std::alloc::Global;

impl Parts {
    /// A second passes (ISO 10589 7.3.5, 7.3.15.3 to 7.3.15.5, 7.3.16.3, 8.2.3 to 8.2.5, 8.4.1, 8.4.2), as it was planned by
    /// these copies of the circuits, if any, and by drafts of what a level then wants where it is followed. At `OutOfMemory` the
    /// router is as it was.
    pub(crate) fn second_passed(
        &mut self,
        copies: &Option<Vec<Circuit>>,
        one: Option<Wants>,
        two: Option<Wants>,
    ) -> Result<(), OutOfMemory>
        requires { IsSecondReady self.old (seen_then copies.now self.old.circuits) one two }
        ensures state { OnOk result (self.new ≡ (step given self.old model.Second).router) }
        ensures err { OnErr result (self.new ≡ self.old) }
    {
        let key_one = key_of(&self.desk, Level::One);
        let key_two = key_of(&self.desk, Level::Two);
        let circuits = seen_then(copies, &self.circuits);
        let one = match ready_to_pass(&mut self.one, key_one, circuits, Level::One, one) {
            Ok(one) => one,
            Err(error) => {
                drop(two);
                return Err(error);
            }
        };
        let two = match ready_to_pass(&mut self.two, key_two, circuits, Level::Two, two) {
            Ok(two) => two,
            Err(error) => {
                drop(one);
                return Err(error);
            }
        };
        pass(&mut self.one, key_one, one, circuits, Level::One);
        pass(&mut self.two, key_two, two, circuits, Level::Two);
        pass_circuits(&mut self.circuits);
        idle_all(&mut self.circuits, self.desk.system());
        Ok(())
    }
}

/// A second of all circuits: their counters, then their holding times.
fn pass_circuits(circuits: &mut Vec<Circuit>)
    requires { length circuits.old.items ≤ 64 }
    ensures state { circuits.new.items ≡ map later circuits.old.items }
    ensures count { length circuits.new.items ≡ length circuits.old.items }
    ensures same { map desk_circuit circuits.new.items ≡ map desk_circuit circuits.old.items }
    ensures fit { AllByRecursion IsFit circuits.old.items
        → AllByRecursion IsFit circuits.new.items }
{
    for place in 0..circuits.len() {
        second_at(circuits, place as u8 + 1);
    }
}

/// The circuits that a second goes by: these copies, where there are some, and else the circuits as they are.
pub(crate) fn seen_then<'a>(
    copies: &'a Option<Vec<Circuit>>,
    circuits: &'a [Circuit],
) -> &'a [Circuit]
    ensures { result.now ≡ seen_then copies.now circuits.now }
{
    match copies {
        Some(copies) => copies,
        None => circuits,
    }
}

/// Copies of circuits a second later, where the time of an adjacency ends within it; else circuits then say what they say.
pub(crate) fn copies_then(
    alloc: Global,
    circuits: &[Circuit],
) -> Result<Option<Vec<Circuit>>, OutOfMemory>
    ensures later { IfOk result
        (λ copies. faces (seen_then copies circuits.now) ≡ faces (map later circuits.now)) }
    ensures count { IfOk result
        (λ copies. length (seen_then copies circuits.now) ≡ length circuits.now) }
    ensures fit { IfOk result (λ copies. AllByRecursion IsFit circuits.now
        → AllByRecursion IsFit (seen_then copies circuits.now)) }
{
    if !some_end(circuits) {
        return Ok(None);
    }
    match circuits_later(alloc, circuits) {
        Ok(copies) => Ok(Some(copies)),
        Err(error) => Err(error),
    }
}

/// Whether the time of an adjacency of some circuits ends within a second (ISO 10589 8.2.5, 8.4.2).
fn some_end(circuits: &[Circuit]) -> bool
    ensures { result ≡ list_any time_over circuits.now }
{
    circuits.iter().any(|circuit| circuit.is_ending())
}

/// Copies of circuits a second later, which remember no boots: own LSPs don't look at those.
fn circuits_later(alloc: Global, circuits: &[Circuit]) -> Result<Vec<Circuit>, OutOfMemory>
    ensures { IfOk result (λ list. list.items ≡ map bare_later circuits.now) }
{
    let mut list = Vec::new(alloc);
    for place in 0..circuits.len() {
        let circuit = match circuit_later(&circuits[place]) {
            Ok(circuit) => circuit,
            Err(error) => return Err(error),
        };
        match list.push(circuit) {
            Ok(()) => {}
            Err(_) => return Err(OutOfMemory),
        }
    }
    Ok(list)
}

/// One of them.
fn circuit_later(circuit: &Circuit) -> Result<Circuit, OutOfMemory>
    ensures { IfOk result (λ copy. copy ≡ bare_later circuit.now) }
{
    let mut circuit = circuit.copy_without_boots()?;
    circuit.second();
    Ok(circuit)
}

/// The CSNP counters of all circuits stand at 0 where the router isn't designated.
fn idle_all(circuits: &mut Vec<Circuit>, system: SystemId)
    requires { length circuits.old.items ≤ 64 }
    ensures state { (config : Config) → config.system ≡ system_number system
        → circuits.new.items ≡ elections.idle_all config 0 circuits.old.items }
    ensures count { length circuits.new.items ≡ length circuits.old.items }
    ensures same { map desk_circuit circuits.new.items ≡ map desk_circuit circuits.old.items }
    ensures fit { AllByRecursion IsFit circuits.old.items
        → AllByRecursion IsFit circuits.new.items }
{
    for place in 0..circuits.len() {
        idle_at(circuits, system, place as u8 + 1);
    }
}
