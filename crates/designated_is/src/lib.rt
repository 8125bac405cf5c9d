//! The election of the designated system of a LAN.
//!
//! ISO 10589 8.4.5: the candidate of the highest priority, and of these the one of the highest
//! SNPA, is the designated intermediate system of a LAN and level. Who is a candidate is told by
//! the caller. Own: where those are equal too, the higher system ID decides; the circuit's number
//! is the number of its pseudonode. No call takes memory.
//!
//! - `candidate.rt`: who may be elected
//! - `election.rt`: the greatest candidate; the pseudonode
//! - `numbers.rt`: system IDs and SNPAs as numbers
//! - `laws.rt`: who is elected is whom the router's model elects
#![tactic(auto)]

mod candidate;
mod election;
mod laws;
mod numbers;

pub use candidate::Candidate;
pub use election::{elect, pseudonode, stands_before};
pub use laws::election_laws;
pub use numbers::{are_same_systems, snpa_to_number, system_to_number};
