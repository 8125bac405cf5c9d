//! Desks made: of a configuration, and of another desk.
ghost use Rattle.std.specs.Prelude.{◌≡◌, map, IfOk};
ghost use Rattle.router_desk.specs.Configs.{config_of, circuit_of, circuits_of};
ghost use Rattle.router_desk.specs.Desks.{desk_circuit, desk_of};

use crate::circuit_config::CircuitConfig;
use crate::config::Config;
use crate::copies::copy_of_key;
use crate::desk::Desk;
use crate::desk_circuit::DeskCircuit;
use isis_base::OutOfMemory;
use std::alloc::Global;

impl Desk {
    /// The desk of a configuration. It has copies of the keys, so the configuration stays whole.
    pub fn new(alloc: Global, config: &Config) -> Result<Desk, OutOfMemory>
        ensures { IfOk result (λ desk. desk
            ≡ desk_of (config_of config.now) (circuits_of config.now)) }
    {
        let area_key = copy_of_key(&config.area_key)?;
        let domain_key = copy_of_key(&config.domain_key)?;
        let circuits = circuits_of(alloc, config.circuits.as_slice())?;
        Ok(Desk {
            system: config.system,
            levels: config.levels,
            area_key,
            domain_key,
            circuits,
        })
    }

    /// An equal desk.
    pub fn copy(&self) -> Result<Desk, OutOfMemory>
        ensures { IfOk result (λ copy. copy ≡ self.now) }
    {
        let area_key = copy_of_key(&self.area_key)?;
        let domain_key = copy_of_key(&self.domain_key)?;
        let circuits = copy_of_circuits(*self.circuits.allocator(), &self.circuits)?;
        Ok(Desk {
            system: self.system,
            levels: self.levels,
            area_key,
            domain_key,
            circuits,
        })
    }
}

/// What the tests look at of circuits.
fn circuits_of(alloc: Global, circuits: &[CircuitConfig]) -> Result<Vec<DeskCircuit>, OutOfMemory>
    ensures { IfOk result (λ list. list.items ≡ map desk_circuit (map circuit_of circuits.now)) }
{
    let mut list = Vec::with_capacity(alloc, circuits.len())?;
    for place in 0..circuits.len() {
        let circuit = match circuit_of(&circuits[place]) {
            Ok(circuit) => circuit,
            Err(error) => return Err(error),
        };
        list.push(circuit)?;
    }
    Ok(list)
}

/// What the tests look at of a circuit.
fn circuit_of(circuit: &CircuitConfig) -> Result<DeskCircuit, OutOfMemory>
    ensures { IfOk result (λ made. made ≡ desk_circuit (circuit_of circuit.now)) }
{
    let key = copy_of_key(&circuit.key)?;
    Ok(DeskCircuit {
        kind: circuit.kind,
        key,
    })
}

/// An equal list.
fn copy_of_circuits(
    alloc: Global,
    circuits: &[DeskCircuit],
) -> Result<Vec<DeskCircuit>, OutOfMemory>
    ensures { IfOk result (λ list. list.items ≡ circuits.now) }
{
    let mut list = Vec::with_capacity(alloc, circuits.len())?;
    for place in 0..circuits.len() {
        let circuit = match copy_of_circuit(&circuits[place]) {
            Ok(circuit) => circuit,
            Err(error) => return Err(error),
        };
        list.push(circuit)?;
    }
    Ok(list)
}

/// An equal circuit.
fn copy_of_circuit(circuit: &DeskCircuit) -> Result<DeskCircuit, OutOfMemory>
    ensures { IfOk result (λ copy. copy ≡ circuit.now) }
{
    let key = copy_of_key(&circuit.key)?;
    Ok(DeskCircuit {
        kind: circuit.kind,
        key,
    })
}
