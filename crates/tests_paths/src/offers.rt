//! What is offered of prefixes, from texts, and the routes that come of it.
use crate::graphs::node;
use isis_base::{OutOfMemory, read_prefix};
use isis_tlv::PrefixItem;
use route_table::{Candidate, Rank, Routes, routes};
use spf_tree::{Graph, from_scratch};
use std::alloc::Global;

fn rank_of(word: &str) -> Option<Rank> {
    match word.as_bytes() {
        b"Own" => Some(Rank::Own),
        b"One" => Some(Rank::One),
        b"Two" => Some(Rank::Two),
        b"OneDown" => Some(Rank::OneDown),
        b"Default" => Some(Rank::Default),
        _ => None,
    }
}

/// The candidate of a prefix, a rank, a cost and the origin's number.
fn candidate_of(row: &str) -> Option<Candidate> {
    let (prefix, rest) = row.split_once(' ')?;
    let (rank, rest) = rest.split_once(' ')?;
    let (cost, origin) = rest.split_once(' ')?;
    Some(Candidate {
        prefix: read_prefix(prefix).ok()?,
        rank: rank_of(rank)?,
        cost: cost.parse::<u64>().ok()?,
        origin: node(origin.parse::<u8>().ok()?),
    })
}

/// The candidates of rows, without those for the default route where it isn't wanted.
pub fn candidates(alloc: Global, rows: &str, default: bool) -> Option<Vec<Candidate>> {
    let mut candidates = Vec::new(alloc);
    for row in rows.lines() {
        let candidate = candidate_of(row)?;
        if default || candidate.prefix.length() > 0 {
            candidates.push(candidate).ok()?;
        }
    }
    Some(candidates)
}

/// The routes of candidates over the graphs of both levels.
pub fn made(
    alloc: Global,
    candidates: &[Candidate],
    one: &Graph,
    two: &Graph,
) -> Result<Routes, OutOfMemory> {
    let one_distances = from_scratch(alloc, one, one.root())?;
    let two_distances = from_scratch(alloc, two, two.root())?;
    routes(alloc, candidates, one, &one_distances, two, &two_distances)
}

/// What is told of a prefix, by a word `PREFIX:METRIC`.
pub fn item(word: &str, down: bool) -> Option<PrefixItem> {
    let (prefix, metric) = word.split_once(':')?;
    Some(PrefixItem {
        prefix: read_prefix(prefix).ok()?,
        metric: metric.parse::<u32>().ok()?,
        down,
    })
}
