//! Whether a configuration is within the limits.
ghost use Rattle.std.specs.Prelude.{◌≡◌, ◌≤◌, ◌↔◌, IsTrue, length};
ghost use Rattle.router_desk.specs.Limits as limit;

use crate::circuit_config::CircuitConfig;
use crate::config::Config;
use isis_base::numbers::{CIRCUIT_LIMIT, CIRCUIT_METRIC, PREFIX_LIMIT, PREFIX_METRIC};
use isis_base::{Octets, Prefix};

/// The most areas of a router (ISO 10589 7.1.5).
const AREAS: usize = 3;

/// The greatest priority (ISO 10589 9.5).
const PRIORITY: u8 = 127;

/// The most octets of a key (own).
const KEY: usize = 128;

impl Config {
    /// Whether this is within the limits: 1 to 3 areas; at most 64 circuits, each with a metric of
    /// at most 16,777,215, a priority of at most 127 and a key, if any, of 1 to 128 octets; at
    /// most 4,096 prefixes, none named twice, each with a metric of at most 4,261,412,864; and
    /// keys of 1 to 128 octets. It takes no memory.
    pub fn valid(&self) -> bool
        ensures exactly { IsTrue result ↔ limit.IsValid self.now }
        ensures value { result ≡ limit.is_valid self.now }
    {
        is_valid(self)
    }
}

/// Whether a configuration is within the limits, test by test.
#[tactic(auto, unfolding(crate::specs::Limits::is_valid))]
fn is_valid(config: &Config) -> bool
    ensures { result ≡ limit.is_valid config.now }
{
    1 <= config.areas.len()
        && config.areas.len() <= AREAS
        && config.circuits.len() <= CIRCUIT_LIMIT
        && fit_circuits(config.circuits.as_slice())
        && fit_prefixes(config.prefixes.as_slice())
        && fits_key(&config.area_key)
        && fits_key(&config.domain_key)
}

/// Whether each circuit is within the limits.
fn fit_circuits(circuits: &[CircuitConfig]) -> bool
    ensures { result ≡ limit.fit_circuits circuits.now }
{
    for circuit in circuits {
        if !fits_circuit(circuit) {
            return false;
        }
    }
    true
}

/// Whether a circuit is within the limits.
fn fits_circuit(circuit: &CircuitConfig) -> bool
    ensures { result ≡ limit.fits_circuit circuit.now }
{
    circuit.metric <= CIRCUIT_METRIC && circuit.priority <= PRIORITY && fits_key(&circuit.key)
}

/// Whether a key has the length of one, where there is one.
fn fits_key(key: &Option<Octets>) -> bool
    ensures { result ≡ limit.fits_key key.now }
{
    match key {
        None => true,
        Some(key) => 1 <= key.len() && key.len() <= KEY,
    }
}

/// Whether prefixes are within the limits, and none is named twice.
fn fit_prefixes(prefixes: &[(Prefix, u32)]) -> bool
    ensures { result ≡ limit.fit_prefixes prefixes.now }
{
    prefixes.len() <= PREFIX_LIMIT && fit_metrics(prefixes) && are_distinct(prefixes)
}

/// Whether each metric is within the limit.
fn fit_metrics(prefixes: &[(Prefix, u32)]) -> bool
    ensures { result ≡ limit.fit_metrics prefixes.now }
{
    for own in prefixes {
        if own.1 > PREFIX_METRIC {
            return false;
        }
    }
    true
}

/// Whether no prefix is named twice: their numbers are sorted, and then looked at in pairs.
fn are_distinct(prefixes: &[(Prefix, u32)]) -> bool
    requires { length prefixes.now ≤ 4096 }
    ensures { result ≡ limit.are_distinct (limit.numbers_of prefixes.now) }
{
    let mut room = [0; PREFIX_LIMIT];
    let numbers = &mut room[..prefixes.len()];
    put_numbers(numbers, prefixes);
    numbers.sort_unstable();
    are_apart(numbers)
}

/// Writes the number of each prefix.
fn put_numbers(numbers: &mut [u64], prefixes: &[(Prefix, u32)])
    requires { length numbers.old ≡ length prefixes.now }
    ensures { numbers.new ≡ limit.numbers_of prefixes.now }
{
    for place in 0..prefixes.len() {
        numbers[place] = prefixes[place].0.to_number();
    }
}

/// Whether no two numbers beside each other are one.
fn are_apart(numbers: &[u64]) -> bool
    ensures { result ≡ limit.are_apart numbers.now }
{
    for place in 1..numbers.len() {
        if numbers[place] == numbers[place - 1] {
            return false;
        }
    }
    true
}
