//! Copies of configurations.
ghost use Rattle.std.specs.Prelude.{◌≡◌, IfOk};

use crate::circuit_config::CircuitConfig;
use crate::config::Config;
use crate::list::Circuits;
use isis_base::{Octets, OutOfMemory};

impl Config {
    /// An equal configuration.
    pub fn copy(&self) -> Result<Config, OutOfMemory>
        ensures { IfOk result (λ copy. copy ≡ self.now) }
    {
        let areas = self.areas.copy()?;
        let circuits = copy_of_circuits(&self.circuits)?;
        let prefixes = self.prefixes.copy()?;
        let area_key = copy_of_key(&self.area_key)?;
        let domain_key = copy_of_key(&self.domain_key)?;
        Ok(Config {
            system: self.system,
            areas,
            levels: self.levels,
            leak: self.leak,
            overload: self.overload,
            circuits,
            prefixes,
            area_key,
            domain_key,
        })
    }
}

impl CircuitConfig {
    /// An equal configuration.
    pub fn copy(&self) -> Result<CircuitConfig, OutOfMemory>
        ensures { IfOk result (λ copy. copy ≡ self.now) }
    {
        let key = copy_of_key(&self.key)?;
        Ok(CircuitConfig {
            kind: self.kind,
            metric: self.metric,
            priority: self.priority,
            address: self.address,
            key,
        })
    }
}

/// An equal list of circuits.
fn copy_of_circuits(circuits: &Circuits) -> Result<Circuits, OutOfMemory>
    ensures { IfOk result (λ copy. copy ≡ circuits.now) }
{
    let mut copies = Circuits::new(circuits.allocator());
    let list = circuits.as_slice();
    for place in 0..list.len() {
        let copy = match list[place].copy() {
            Ok(copy) => copy,
            Err(error) => return Err(error),
        };
        match copies.push(copy) {
            Ok(()) => {}
            Err(error) => return Err(error),
        }
    }
    Ok(copies)
}

/// An equal key, where there is one.
pub(crate) fn copy_of_key(key: &Option<Octets>) -> Result<Option<Octets>, OutOfMemory>
    ensures { IfOk result (λ copy. copy ≡ key.now) }
{
    match key {
        None => Ok(None),
        Some(key) => {
            let copy = key.copy()?;
            Ok(Some(copy))
        }
    }
}
