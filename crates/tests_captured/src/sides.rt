//! Alternates of small networks, from root 1.
ghost use Rattle.spf_tree.specs.Nodes.{node_number};

use crate::graphs::{graph, node};
use alternates::{Alternate, alternates};
use spf_tree::Graph;
use spf_tree::parts::number;
use std::alloc::{AllocError, Global};

/// The rows, a system that is overloaded (99: none), a target, a hop, and the alternates: system, cost, and whether the link is
/// protected or the node too. They are: a triangle, to both ends; a square, to the opposite corner, and to a neighbour, where
/// the sums are equal; the same with an overloaded corner, from which no way leads; a link of metric 0 to the root, over
/// which a way may come back to where it began; circles of metric 0 around the root, twice; parallel rows; a hop over a LAN,
/// whose members aren't taken; the same LAN where the other hop is meant; costs past 32 bits.
const CASES: &str = "\
1-2:10:10 2-3:10:10 1-3:15:15|99|2|2|3:25 link
1-2:10:10 2-3:10:10 1-3:15:15|99|3|3|2:20 link
1-2:10:10 2-4:10:10 4-3:10:10 3-1:10:10|99|4|2|3:20 node
1-2:10:10 2-4:10:10 4-3:10:10 3-1:10:10|99|2|2|
1-2:10:10 2-4:10:10 4-3:10:10 3-1:10:10|3|4|2|
1-2:5:5 2-4:5:5 1-3:0:0 3-4:10:10|99|4|2|
1-2:0:0 1-3:0:0 2-4:1:1 3-4:1:1|99|4|2|
1-2:0:0 2-3:0:0 3-1:0:0 3-4:1:1|99|4|3|
1-2:10:10 1-3:15:15 1-3:12:12 2-3:10:10|99|2|2|3:22 link
1-102:10:0 2-102:10:0 3-102:10:0 1-4:10:10 4-5:10:10 2-5:10:10|99|5|2|4:20 node
1-102:10:0 2-102:10:0 3-102:10:0 1-4:10:10 4-5:10:10 2-5:10:10|99|5|4|
1-2:4294967295:1 2-4:4294967295:1 1-3:4294967295:4294967295 3-4:4294967295:1|99|4|2|3:8589934590 node";

/// Puts an alternate behind a text.
fn add_one(text: &mut String, told: &Alternate) -> Result<(), AllocError> {
    let (via, cost) = (told.via.0[5], told.cost);
    let word = if told.node { "node" } else { "link" };
    write!(text, "{via}:{cost} {word}")
}

/// Alternates as a text.
fn text_of(alloc: Global, list: &[Alternate]) -> Result<String, AllocError> {
    let mut text = String::new(alloc);
    for told in list {
        add_one(&mut text, told)?;
    }
    Ok(text)
}

/// The alternates for a target and a hop as a text.
fn told(alloc: Global, graph: &Graph, target: u8, hop: u8) -> Option<String> {
    let (root, target) = (node(1), node(target));
    if number(root) == number(target) {
        return None;
    }
    let list = alternates(alloc, graph, root, target, node(hop).system).ok()?;
    text_of(alloc, list.as_slice()).ok()
}

/// Whether the alternates of a row are those that it names.
fn holds(alloc: Global, row: &str) -> Option<bool> {
    let (rows, rest) = row.split_once('|')?;
    let (overloaded, rest) = rest.split_once('|')?;
    let (target, rest) = rest.split_once('|')?;
    let (hop, want) = rest.split_once('|')?;
    let graph = graph(alloc, rows, overloaded.parse::<u8>().ok()?)?;
    let told = told(
        alloc,
        &graph,
        target.parse::<u8>().ok()?,
        hop.parse::<u8>().ok()?,
    )?;
    Some(told.as_str() == want)
}

/// The first row that doesn't hold, counted from 1; 0 where all do.
fn first_wrong(alloc: Global) -> usize {
    let mut place = 0usize;
    for row in CASES.lines() {
        place = place.saturating_add(1);
        if holds(alloc, row) != Some(true) {
            return place;
        }
    }
    0
}

#[test]
fn networks_have_their_alternates(rt: HostRuntime) {
    assert_eq!(rt; first_wrong(rt.alloc()), 0);
}
