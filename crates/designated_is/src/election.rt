//! The greatest candidate, and the pseudonode of a circuit.
ghost use Rattle.std.specs.Prelude.{◌≡◌, ◌↔◌, ℕ, ◌+◌, ◌*◌, if◌then◌else◌, [], IsNone, IfSome};
ghost use Rattle.model_router.specs.Configs.{Config};
ghost use Rattle.model_router.specs.Routers.{Circuit};
ghost use Rattle.model_router.specs.Elections as model;
ghost use Rattle.designated_is.specs.Greatest.{beats, best_of, IsElected};

use crate::candidate::Candidate;
use crate::numbers::{snpa_to_number, system_to_number};
use isis_base::SystemId;

/// The system of the greatest candidate: by priority, then SNPA (ISO 10589 8.4.5), then system ID.
/// `None` exactly where there is no candidate.
pub fn elect(candidates: &[Candidate]) -> Option<SystemId>
    ensures none { IsNone result ↔ (candidates.now ≡ []) }
    ensures elected { IfSome result (λ system. IsElected candidates.now system) }
{
    let (first, others) = candidates.split_first()?;
    Some(best(*first, others).system)
}

/// Whether a candidate stands before another: by priority, then SNPA (ISO 10589 8.4.5), then system ID (own).
pub fn stands_before(a: Candidate, b: Candidate) -> bool
    ensures { result ≡ beats a b }
{
    if a.priority != b.priority {
        return a.priority > b.priority;
    }
    let a_snpa = snpa_to_number(a.snpa);
    let b_snpa = snpa_to_number(b.snpa);
    if a_snpa != b_snpa {
        return a_snpa > b_snpa;
    }
    system_to_number(a.system) > system_to_number(b.system)
}

/// The number of a circuit's pseudonode: the circuit's number (own). With it the router's model makes
/// one's own LAN ID.
pub fn pseudonode(circuit: u8) -> u8
    ensures circuit { result ≡ circuit }
    ensures lan { (config : Config) (place : ℕ) (c : Circuit) → place + 1 ≡ circuit
        → (model.oneself config place c).lan ≡ 256 * config.system + result }
{
    circuit
}

/// The greatest of a candidate and others.
#[tactic(auto, unfolding(crate::specs::Greatest::best_of))]
fn best(first: Candidate, others: &[Candidate]) -> Candidate
    ensures { result ≡ best_of first others.now }
{
    let mut best = first;
    for other in others {
        best = better(best, *other);
    }
    best
}

/// The greater of two candidates, the first where they are equal.
fn better(best: Candidate, other: Candidate) -> Candidate
    ensures { result ≡ (if beats other best then other else best) }
{
    if stands_before(other, best) {
        return other;
    }
    best
}
