//! Routers at their start.
ghost use Rattle.std.specs.Prelude.{◌≡◌, ◌≤◌, length, map, IfOk};
ghost use Rattle.model_router.specs.Starts.{start, started, empty_level, points_of};
ghost use Rattle.router_desk.specs.Configs.{config_of, circuit_of, circuits_of};
ghost use Rattle.router_desk.specs.Desks.{is_lan, kind_of_circuit};
ghost use Rattle.router_desk.specs.Limits.{IsValid};
ghost use Rattle.router_levels.specs.Views.{state_of};

use crate::parts::Parts;
use crate::prefixes::OwnPrefixes;
use crate::together::both;
use isis_base::{CircuitKind, Octets, OutOfMemory};
use router_circuits::Circuit;
use router_desk::{CircuitConfig, Config, Desk};
use router_levels::LevelParts;
use std::alloc::Global;

impl Parts {
    /// The router of a configuration at its start, in a boot.
    pub(crate) fn new(alloc: Global, config: &Config, boot: u32) -> Result<Parts, OutOfMemory>
        requires valid { IsValid config.now }
        ensures { IfOk result (λ machine.
            machine ≡ start (config_of config.now) boot (circuits_of config.now)) }
    {
        let circuits = circuits_of(alloc, config.circuits.as_slice())?;
        let levels = both(level_of(alloc, &circuits), level_of(alloc, &circuits));
        let prefixes = OwnPrefixes::of(alloc, config.prefixes.as_slice());
        let own = both(
            both(Desk::new(alloc, config), config.areas.copy()),
            prefixes,
        );
        match both(own, levels) {
            Ok((((desk, areas), prefixes), (one, two))) => Ok(Parts {
                alloc,
                desk,
                areas,
                leak: config.leak,
                overload: config.overload,
                prefixes,
                boot,
                circuits,
                one,
                two,
                drops: [0; 21],
            }),
            Err(error) => {
                drop(circuits);
                Err(error)
            }
        }
    }

    /// The opening state of another boot, of the configuration as changed so far.
    pub(crate) fn restarted(&self, boot: u32) -> Result<Parts, OutOfMemory>
        ensures { IfOk result (λ machine.
            machine ≡ start self.now.config boot self.now.circuits) }
    {
        let (alloc, circuits) = (self.alloc, &self.circuits);
        let levels = both(level_of(alloc, circuits), level_of(alloc, circuits));
        let parts = both(fresh_circuits(alloc, circuits), levels);
        let own = both(
            both(self.desk.copy(), self.areas.copy()),
            self.prefixes.copy(),
        );
        match both(own, parts) {
            Ok((((desk, areas), prefixes), (circuits, (one, two)))) => Ok(Parts {
                alloc,
                desk,
                areas,
                leak: self.leak,
                overload: self.overload,
                prefixes,
                boot,
                circuits,
                one,
                two,
                drops: [0; 21],
            }),
            Err(error) => Err(error),
        }
    }
}

/// The circuits of a configuration.
fn circuits_of(alloc: Global, configs: &[CircuitConfig]) -> Result<Vec<Circuit>, OutOfMemory>
    ensures { IfOk result (λ list. list.items ≡ map circuit_of configs.now) }
{
    let mut list = Vec::with_capacity(alloc, configs.len())?;
    for place in 0..configs.len() {
        let circuit = match Circuit::new(alloc, &configs[place]) {
            Ok(circuit) => circuit,
            Err(error) => return Err(error),
        };
        list.push(circuit)?;
    }
    Ok(list)
}

/// Circuits at the start, of the configuration of these.
fn fresh_circuits(alloc: Global, circuits: &[Circuit]) -> Result<Vec<Circuit>, OutOfMemory>
    ensures { IfOk result (λ list. list.items ≡ map started circuits.now) }
{
    let mut list = Vec::with_capacity(alloc, circuits.len())?;
    for place in 0..circuits.len() {
        let circuit = match fresh(alloc, &circuits[place]) {
            Ok(circuit) => circuit,
            Err(error) => return Err(error),
        };
        list.push(circuit)?;
    }
    Ok(list)
}

/// A circuit at the start, of the configuration of this one.
fn fresh(alloc: Global, circuit: &Circuit) -> Result<Circuit, OutOfMemory>
    ensures { IfOk result (λ made. made ≡ started circuit.now) }
{
    let config = config_of(alloc, circuit)?;
    Circuit::new(alloc, &config)
}

/// The configuration of a circuit.
fn config_of(alloc: Global, circuit: &Circuit) -> Result<CircuitConfig, OutOfMemory>
    ensures { IfOk result (λ config. circuit_of config ≡ started circuit.now) }
{
    Ok(CircuitConfig {
        kind: kind_of(circuit),
        metric: circuit.metric(),
        priority: circuit.priority(),
        address: circuit.address(),
        key: key_of(alloc, circuit)?,
    })
}

/// A copy of the key of a circuit.
fn key_of(alloc: Global, circuit: &Circuit) -> Result<Option<Octets>, OutOfMemory>
    ensures { IfOk result (λ key. key ≡ circuit.now.key) }
{
    match circuit.key() {
        None => Ok(None),
        Some(key) => {
            let mut copy = Octets::new(alloc);
            copy.extend(key)?;
            Ok(Some(copy))
        }
    }
}

/// The kind of a circuit.
fn kind_of(circuit: &Circuit) -> CircuitKind
    ensures lan { is_lan result ≡ circuit.now.lan }
    ensures value { result ≡ kind_of_circuit circuit.now.lan }
{
    if circuit.is_lan() {
        return CircuitKind::Lan;
    }
    CircuitKind::PointToPoint
}

/// A level at the start, of these circuits.
fn level_of(alloc: Global, circuits: &[Circuit]) -> Result<LevelParts, OutOfMemory>
    requires { length circuits.now ≤ 64 }
    ensures state { IfOk result (λ level. state_of level
        ≡ empty_level (points_of 0 circuits.now)) }
    ensures circuits { IfOk result (λ level. level.book.circuits ≡ length circuits.now) }
{
    let kinds = kinds_of(alloc, circuits)?;
    LevelParts::new(alloc, &kinds)
}

/// The kinds of circuits.
fn kinds_of(alloc: Global, circuits: &[Circuit]) -> Result<Vec<CircuitKind>, OutOfMemory>
    ensures { IfOk result (λ kinds. kinds.items
        ≡ map (λ c. kind_of_circuit c.lan) circuits.now) }
{
    let mut kinds = Vec::with_capacity(alloc, circuits.len())?;
    for place in 0..circuits.len() {
        kinds.push(kind_of(&circuits[place]))?;
    }
    Ok(kinds)
}
