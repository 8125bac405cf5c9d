//! Candidates in order: by prefix, then by rank and cost.

ghost use Rattle.std.specs.Prelude.{◌≡◌, ◌<◌, length, IfOk};
ghost use Rattle.std.specs.Bool.{MatchBool};
ghost use Rattle.std.specs.List.{Contains};
ghost use Rattle.route_table.specs.declared.candidate.Candidate.{Candidate};
ghost use Rattle.route_table.specs.Ranks.{prefix_number};
ghost use Rattle.route_table.specs.Order.{AreInOrder, IsAsGood, IsSamePrefix, IsRun};

use crate::candidate::Candidate;
use crate::rank::rank_number;
use isis_base::{OutOfMemory, Prefix};
use std::alloc::Global;

/// A prefix as a number: by its address, then by its length.
pub(crate) fn prefix_number(prefix: Prefix) -> u64
    ensures { result ≡ prefix_number prefix }
{
    u64::from(prefix.address()) * 64 + u64::from(prefix.length())
}

/// The candidates in order.
pub fn in_order(alloc: Global, candidates: &[Candidate]) -> Result<Vec<Candidate>, OutOfMemory>
    ensures order { IfOk result (λ sorted. AreInOrder sorted.items) }
    ensures all { IfOk result (λ sorted. (c : Candidate) → Contains candidates.now c
        → Contains sorted.items c) }
    ensures none { IfOk result (λ sorted. (c : Candidate) → Contains sorted.items c
        → Contains candidates.now c) }
{
    let mut sorted = Vec::new(alloc);
    match sorted.extend_from_slice(candidates) {
        Ok(()) => {}
        Err(_) => return Err(OutOfMemory),
    }
    sorted.sort_unstable_by_key(|c| (prefix_number(c.prefix), rank_number(c.rank), c.cost));
    Ok(sorted)
}

/// The place behind the candidates that are as good as the one at this place.
pub fn run_end(candidates: &[Candidate], first: usize) -> usize
    requires { first < length candidates.now }
    ensures { IsRun IsAsGood candidates.now first result }
{
    let mut end = first + 1;
    while end < candidates.len() && is_as_good(&candidates[end], &candidates[first]) {
        end += 1;
    }
    end
}

/// Whether two candidates are for one prefix, and of one rank and cost.
fn is_as_good(a: &Candidate, b: &Candidate) -> bool
    ensures { MatchBool result (IsAsGood a.now b.now) (IsAsGood a.now b.now → ⊥) }
{
    prefix_number(a.prefix) == prefix_number(b.prefix)
        && rank_number(a.rank) == rank_number(b.rank)
        && a.cost == b.cost
}

/// The place behind the candidates for the prefix of the one at this place.
pub fn prefix_end(candidates: &[Candidate], first: usize) -> usize
    requires { first < length candidates.now }
    ensures { IsRun IsSamePrefix candidates.now first result }
{
    let mut end = first + 1;
    while end < candidates.len() && is_same_prefix(&candidates[end], &candidates[first]) {
        end += 1;
    }
    end
}

/// Whether two candidates are for one prefix.
fn is_same_prefix(a: &Candidate, b: &Candidate) -> bool
    ensures { MatchBool result (IsSamePrefix a.now b.now) (IsSamePrefix a.now b.now → ⊥) }
{
    prefix_number(a.prefix) == prefix_number(b.prefix)
}
