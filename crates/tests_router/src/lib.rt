//! Tests of the parts of one router, of the router, and of what networks of routers are looked at by.
//!
//! There is nothing here but tests, so they are proved against the contracts of the crates that they are of. Expected
//! octets are from outside: the scripts beside src/ make them with Python's own modules.
//!
//! - `made.rt`: values that several of them begin with
//! - `octets.rt`: LSPs of router_sending, with the rows of `octets_vectors.py`; `sending.rt`: its PDUs, with those of
//!   `sending_vectors.py`; `levels.rt`: router_levels
//! - `desks.rt`: router_desk, with the rows of `desks_vectors.py`; `circuits.rt`: router_circuits; `wants.rt`:
//!   router_wanted; `readings.rt`: what router_desk reads of PDUs
//! - `routers.rt`: router_core
//! - `keys.rt`: lab_keys; `sweeps.rt`, `links.rt`: lab_facts, its ranges of CSNPs and its groups
#![tactic(auto)]

#[cfg(test)]
mod circuits;
#[cfg(test)]
mod desks;
#[cfg(test)]
mod keys;
#[cfg(test)]
mod levels;
#[cfg(test)]
mod links;
#[cfg(test)]
mod made;
#[cfg(test)]
mod octets;
#[cfg(test)]
mod readings;
#[cfg(test)]
mod routers;
#[cfg(test)]
mod sending;
#[cfg(test)]
mod sweeps;
#[cfg(test)]
mod wants;
