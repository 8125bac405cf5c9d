//! Who is designated on a LAN.
ghost use Rattle.std.specs.Prelude.{◌≡◌, ℕ, ◌+◌, ◌*◌, map, if◌then◌else◌};
ghost use Rattle.std.specs.Option.{option_map};
ghost use Rattle.model_router.specs.Configs.{Config};
ghost use Rattle.model_router.specs.Elections as model;
ghost use Rattle.model_router.specs.Pulls.{lan_of};
ghost use Rattle.model_router.specs.Routers.{Router};
ghost use Rattle.model_router.specs.Numbers.{node_number, system_number};
ghost use Rattle.designated_is.specs.Greatest as election;
ghost use Rattle.designated_is.specs.Numbers as numbers;
ghost use Rattle.adjacency.specs.Views.{neighbour_of};
ghost use Rattle.router_circuits.specs.Elections.{candidate_of, designated_of, elect, system_and_lan};
ghost use Rattle.router_circuits.specs.Views.{IsHere};

use crate::candidate::Candidate;
use crate::circuit::Circuit;
use crate::designated::Designated;
use crate::senders::some_up;
use adjacency::Neighbour;
use designated_is::{are_same_systems, pseudonode, stands_before};
use isis_base::{Level, NodeId, Snpa, SystemId};

impl Circuit {
    /// The designated system of a LAN and level, for a router of this system whose circuit has this
    /// number (ISO 10589 8.4.5): the greatest of the router and its up neighbours. `None` where no
    /// neighbour is up, and on a point-to-point circuit.
    pub fn designated(&self, system: SystemId, circuit: u8, level: Level) -> Option<Designated>
        ensures { (config : Config) (place : ℕ) → IsHere config place system circuit
            → option_map designated_of result
            ≡ option_map system_and_lan (model.designated config place self.now level) }
    {
        if !self.is_lan() {
            return None;
        }
        let up = self.up(level);
        if !some_up(up) {
            return None;
        }
        let best = elected(self.oneself(system, circuit), up);
        Some(designated_from(best))
    }

    /// Whether the router is designated on a LAN and level (ISO 10589 8.4.5).
    pub fn is_designated(&self, system: SystemId, circuit: u8, level: Level) -> bool
        ensures { (config : Config) (place : ℕ) → IsHere config place system circuit
            → result ≡ model.is_designated config place self.now level }
    {
        match self.designated(system, circuit, level) {
            Some(designated) => are_same_systems(designated.system, system),
            None => false,
        }
    }

    /// The LAN ID that the router's hellos say (ISO 10589 8.4.5): the designated system's, one's
    /// own where there is none.
    pub fn lan_id(&self, system: SystemId, circuit: u8, level: Level) -> NodeId
        ensures { (r : Router) (place : ℕ) → IsHere r.config place system circuit
            → node_number result ≡ lan_of r place self.now level }
    {
        match self.designated(system, circuit, level) {
            Some(designated) => designated.lan,
            None => own_lan(system, circuit),
        }
    }

    /// Oneself as a candidate (ISO 10589 8.4.5): an SNPA is its system's ID (own).
    fn oneself(&self, system: SystemId, circuit: u8) -> Candidate
        ensures { (config : Config) (place : ℕ) → IsHere config place system circuit
            → candidate_of result ≡ model.oneself config place self.now }
    {
        let lan = own_lan(system, circuit);
        Candidate {
            priority: self.priority,
            snpa: Snpa(system.0),
            system,
            lan,
        }
    }
}

/// One's own LAN ID on a circuit: the circuit's number is its pseudonode (own).
fn own_lan(system: SystemId, circuit: u8) -> NodeId
    ensures { node_number result ≡ 256 * system_number system + circuit }
{
    NodeId {
        system,
        pseudonode: pseudonode(circuit),
    }
}

/// What a candidate is designated with.
fn designated_from(best: Candidate) -> Designated
    ensures { designated_of result ≡ system_and_lan (candidate_of best) }
{
    Designated {
        system: best.system,
        lan: best.lan,
    }
}

/// The greatest of a candidate and neighbours.
#[tactic(auto, unfolding(crate::specs::Elections::elect))]
fn elected(oneself: Candidate, up: &[Neighbour]) -> Candidate
    ensures { candidate_of result ≡ elect (candidate_of oneself) (map neighbour_of up.now) }
{
    let mut best = oneself;
    for neighbour in up {
        best = greater(best, candidate(neighbour));
    }
    best
}

/// A neighbour as a candidate.
fn candidate(neighbour: &Neighbour) -> Candidate
    ensures { candidate_of result ≡ model.candidate (neighbour_of neighbour.now) }
{
    Candidate {
        priority: neighbour.priority,
        snpa: neighbour.snpa,
        system: neighbour.system,
        lan: neighbour.lan,
    }
}

/// The greater of two candidates, the first where they are equal.
fn greater(best: Candidate, other: Candidate) -> Candidate
    ensures { candidate_of result ≡ (if model.beats (candidate_of other) (candidate_of best)
        then candidate_of other else candidate_of best) }
{
    if stands_before(plain(other), plain(best)) {
        return other;
    }
    best
}

/// A candidate without its LAN ID, which decides nothing.
fn plain(candidate: Candidate) -> designated_is::Candidate
    ensures { numbers.candidate_of result ≡ election.plain (candidate_of candidate) }
{
    designated_is::Candidate {
        priority: candidate.priority,
        snpa: candidate.snpa,
        system: candidate.system,
    }
}
