//! Prefixes by their places in order, by which the route table of IPv4 chooses among candidates (own).

ghost use Rattle.std.specs.Prelude.{◌≡◌, ℕ, IfOk, OnOk};
ghost use Rattle.std.specs.Bool.{MatchBool};
ghost use Rattle.std.specs.List.{Contains};
ghost use Rattle.route_table.specs.declared.route.Route.{Route};
ghost use Rattle.ipv6_reach.specs.declared.candidate6.Candidate6.{Candidate6};
ghost use Rattle.ipv6_reach.specs.Routes6.{prefix6_number};
ghost use Rattle.ipv6_reach.specs.Numbered.{AreNames, AreInOrder6, AreUpTo, IsAt, IsLast, IsGrown, IsNumbered, AreNumbered, rank_for, IsStand, HasName, IsNamed, AreNamed};

use crate::candidate6::Candidate6;
use crate::prefix6::Prefix6;
use crate::rank6::Rank6;
use crate::route6::Route6;
use isis_base::{OutOfMemory, Prefix};
use route_table::{Candidate, Rank, Route};
use std::alloc::Global;

/// The prefixes in order, and candidates whose addresses are places among them.
#[derive(Drop)]
pub struct Numbered {
    pub names: Vec<Prefix6>,
    pub stands: Vec<Candidate>,
}

/// The candidates in order of prefix.
pub fn in_order6(mut candidates: Vec<Candidate6>) -> Vec<Candidate6>
    ensures order { AreInOrder6 result.items }
    ensures all { (c : Candidate6) → Contains candidates.items c → Contains result.items c }
    ensures none { (c : Candidate6) → Contains result.items c → Contains candidates.items c }
{
    candidates.sort_unstable_by_key(|c| (c.prefix.address(), c.prefix.length()));
    candidates
}

/// Candidates that stand for these.
pub fn number_all(alloc: Global, candidates: &[Candidate6]) -> Result<Numbered, OutOfMemory>
    requires { AreInOrder6 candidates.now }
    ensures names { IfOk result (λ n. AreNames n.names.items) }
    ensures stands { IfOk result (λ n. AreNumbered n.names.items candidates.now n.stands.items) }
{
    let (mut names, mut stands) = (Vec::new(alloc), Vec::new(alloc));
    for k in 0..candidates.len() {
        let candidate = &candidates[k];
        let place = match add_name(&mut names, candidate.prefix) {
            Ok(place) => place,
            Err(error) => return Err(error),
        };
        match stands.push(stand_for(candidate, place)) {
            Ok(()) => {}
            Err(_) => return Err(OutOfMemory),
        }
    }
    Ok(Numbered { names, stands })
}

/// The place of a prefix: that of the last one, where it is the same, else that at the end, where it is put. A place past 32
/// bits, which no database has, counts as a want of memory.
fn add_name(names: &mut Vec<Prefix6>, prefix: Prefix6) -> Result<u32, OutOfMemory>
    requires names { AreNames names.old.items }
    requires up_to { AreUpTo names.old.items prefix }
    ensures names { OnOk result (AreNames names.new.items) }
    ensures up_to { OnOk result (AreUpTo names.new.items prefix) }
    ensures grown { OnOk result (IsGrown names.old.items names.new.items) }
    ensures at { IfOk result (λ place. IsAt names.new.items place prefix) }
{
    let count = names.len();
    if count > 4_294_967_295 {
        return Err(OutOfMemory);
    }
    if ends_with(names.as_slice(), &prefix) {
        return Ok(count as u32 - 1);
    }
    match names.push(prefix) {
        Ok(()) => Ok(count as u32),
        Err(_) => Err(OutOfMemory),
    }
}

/// Whether a prefix is the last of a list.
fn ends_with(names: &[Prefix6], prefix: &Prefix6) -> bool
    ensures { MatchBool result (IsLast names.now prefix.now) (IsLast names.now prefix.now → ⊥) }
{
    let count = names.len();
    if count == 0 {
        return false;
    }
    is_same(&names[count - 1], prefix)
}

/// Whether two prefixes are one.
fn is_same(one: &Prefix6, other: &Prefix6) -> bool
    ensures { MatchBool result (prefix6_number one.now ≡ prefix6_number other.now)
        (prefix6_number one.now ≡ prefix6_number other.now → ⊥) }
{
    one.address() == other.address() && one.length() == other.length()
}

/// The candidate that stands for one whose prefix has this place.
fn stand_for(candidate: &Candidate6, place: u32) -> Candidate
    ensures address { result.prefix.address ≡ place }
    ensures long { result.prefix.length ≡ 32 }
    ensures rank { result.rank ≡ rank_for candidate.now.rank }
    ensures cost { result.cost ≡ candidate.now.cost }
    ensures origin { result.origin ≡ candidate.now.origin }
{
    Candidate {
        prefix: Prefix::new(place, 32).unwrap(),
        rank: rank_for(candidate.rank),
        cost: candidate.cost,
        origin: candidate.origin,
    }
}

/// The rank that stands for one.
fn rank_for(rank: Rank6) -> Rank
    ensures { result ≡ rank_for rank }
{
    match rank {
        Rank6::Own => Rank::Own,
        Rank6::Up => Rank::One,
        Rank6::Down => Rank::OneDown,
    }
}

/// The rank that one stands for; no candidate has one of the last two.
fn rank_of(rank: Rank) -> Rank6
    requires { IsStand rank }
    ensures { rank ≡ rank_for result }
{
    match rank {
        Rank::Own => Rank6::Own,
        Rank::One => Rank6::Up,
        Rank::OneDown => Rank6::Down,
        Rank::Two => Rank6::Down,
        Rank::Default => Rank6::Down,
    }
}

/// The routes that these stand for.
pub fn named(alloc: Global, names: &[Prefix6], routes: &[Route]) -> Result<Vec<Route6>, OutOfMemory>
    requires { (route : Route) → Contains routes.now route → HasName names.now route }
    ensures { IfOk result (λ list. AreNamed names.now routes.now list.items) }
{
    let mut list = Vec::new(alloc);
    for route in routes {
        let one = match named_one(names, route) {
            Ok(one) => one,
            Err(error) => return Err(error),
        };
        match list.push(one) {
            Ok(()) => {}
            Err(_) => return Err(OutOfMemory),
        }
    }
    Ok(list)
}

/// The route that one stands for.
fn named_one(names: &[Prefix6], route: &Route) -> Result<Route6, OutOfMemory>
    requires { HasName names.now route.now }
    ensures { IfOk result (λ one. IsNamed names.now route.now one) }
{
    match route.hops.copy() {
        Ok(hops) => Ok(Route6 {
            prefix: names[route.prefix.address() as usize],
            rank: rank_of(route.rank),
            cost: route.cost,
            hops,
        }),
        Err(error) => Err(error),
    }
}
