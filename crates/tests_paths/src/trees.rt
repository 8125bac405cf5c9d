//! Graphs, their costs and next hops in a table, of spf_tree.
ghost use Rattle.spf_tree.specs.Nodes.{node_number};
ghost use Rattle.spf_tree.specs.Distances.{AreDistances};

use crate::graphs::{add_hops, graph, node};
use isis_base::NodeId;
use spf_tree::{Distances, Graph, Hops, all_next_hops, from_scratch, next_hops};
use std::alloc::{AllocError, Global};
use std::test::Fail;

/// Graphs from root 1: the rows, the overloaded system, how many rows may be walked, and for some nodes the distance and for
/// systems the next hops. They are: two ways over a pseudonode; a row that one end lists; the greatest metric leads back all
/// the same; no way through an overloaded system, but to it; the root goes on though it is overloaded; parallel rows each
/// count, the cheaper one is walked; a circle of metric 0 between two first systems.
const CASES: &str = "\
1-101:10 101-1:0 101-2:0 101-3:0 2-101:10 3-101:10 2-4:5 3-4:5 4-2:5 4-3:5 1-4:16777215 4-1:16777215|-|10|1=0> 101=10> 2=10>2 4=15>2,3
1-2:1 1-3:5 3-1:5 3-2:5|-|2|2=-> 3=5>3
1-2:7 2-1:16777215|-|1|2=7>2
1-2:1 2-1:1 2-3:1 3-2:1 1-3:9 3-1:9|2|4|2=1>2 3=9>3
1-2:1 2-1:1|1|2|2=1>2
1-2:8 1-2:3 1-2:3 2-1:8|-|4|2=3>2
1-2:4 2-1:4 1-3:4 3-1:4 2-3:0 3-2:0 2-4:1 4-2:1|-|8|2=4>2,3 3=4>2,3 4=5>2,3";

/// A node's number, distance and hops as a text.
fn says(alloc: Global, number: u8, cost: Option<u64>, hops: &Hops) -> Result<String, AllocError> {
    let mut text = String::new(alloc);
    match cost {
        Some(cost) => write!(text, "{number}={cost}>")?,
        None => write!(text, "{number}=->")?,
    }
    add_hops(&mut text, hops)?;
    Ok(text)
}

/// The next hops of a node, none of a pseudonode.
fn hops_to(alloc: Global, graph: &Graph, distances: &Distances, target: NodeId) -> Option<Hops>
    requires { AreDistances graph.now.rows (node_number graph.now.root) distances.now }
{
    if target.pseudonode != 0 {
        return Some(Hops::new(alloc));
    }
    next_hops(alloc, graph, distances, graph.root(), target).ok()
}

/// The same by the table of all.
fn hops_in_table(
    alloc: Global,
    graph: &Graph,
    distances: &Distances,
    target: NodeId,
) -> Option<Hops>
    requires { AreDistances graph.now.rows (node_number graph.now.root) distances.now }
{
    if target.pseudonode != 0 {
        return Some(Hops::new(alloc));
    }
    let table = all_next_hops(alloc, graph, distances, graph.root()).ok()?;
    table.hops(alloc, target).ok()
}

/// Whether a node has the distance and the hops that a word says.
fn is_target(alloc: Global, graph: &Graph, distances: &Distances, word: &str) -> Option<bool>
    requires { AreDistances graph.now.rows (node_number graph.now.root) distances.now }
{
    let (number, _) = word.split_once('=')?;
    let number = number.parse::<u8>().ok()?;
    let cost = distances.get(node(number));
    let alone = hops_to(alloc, graph, distances, node(number))?;
    let is_alone = says(alloc, number, cost, &alone).ok()?.as_str() == word;
    let beside = hops_in_table(alloc, graph, distances, node(number))?;
    Some(is_alone && says(alloc, number, cost, &beside).ok()?.as_str() == word)
}

/// Whether a graph has as many rows and such targets.
fn are_targets(alloc: Global, graph: &Graph, words: &str) -> Option<bool> {
    let (usable, targets) = words.split_once('|')?;
    if graph.rows().len() != usable.parse::<usize>().ok()? {
        return None;
    }
    let Ok(distances) = from_scratch(alloc, graph, graph.root()) else {
        return None;
    };
    for word in targets.split(' ') {
        if is_target(alloc, graph, &distances, word) != Some(true) {
            return None;
        }
    }
    Some(true)
}

fn is_right(alloc: Global, case: &str) -> Option<bool> {
    let (rows, rest) = case.split_once('|')?;
    let (overloaded, rest) = rest.split_once('|')?;
    let graph = graph(alloc, rows, overloaded.parse::<u8>().ok())?;
    let copy = graph.copy().ok()?;
    are_targets(alloc, &copy, rest)
}

fn first_wrong<'a>(alloc: Global, cases: &'a str) -> Option<&'a str> {
    for case in cases.lines() {
        if is_right(alloc, case) != Some(true) {
            return Some(case);
        }
    }
    None
}

#[test]
fn graphs_have_their_distances_and_next_hops(rt: HostRuntime) {
    assert_eq!(rt; first_wrong(rt.alloc(), CASES), None);
}

/// Whether hops are systems 2 and 1.
fn are_two(hops: &Hops) -> bool {
    let [first, second] = [hops.get(0), hops.get(1)];
    first == Some(node(2).system) && second == Some(node(1).system) && hops.get(2).is_none()
}

#[test]
fn hops_are_a_list(rt: HostRuntime) -> Result<(), Fail> {
    let mut hops = Hops::new(rt.alloc());
    assert!(rt; hops.is_empty());
    hops.push(node(2).system)?;
    hops.push(node(1).system)?;
    let copy = hops.copy()?;
    assert!(rt; are_two(&copy) && copy.len() == 2 && !copy.is_empty());
    Ok(())
}
