//! Next hops of several candidates.

ghost use Rattle.std.specs.Prelude.{◌≡◌, ◌≤◌, ◌++◌, ◌↔◌, ℕ, true, length, IfOk, OnOk};
ghost use Rattle.std.specs.List.{All, Contains};
ghost use Rattle.std.specs.List.Sorted.{IsStrictlyIncreasing};
ghost use Rattle.spf_tree.specs.Nodes.{system_node, is_system};
ghost use Rattle.route_table.specs.declared.candidate.Candidate.{Candidate};
ghost use Rattle.route_table.specs.Order.{IsListedHop, AreHopsIn};

use crate::candidate::Candidate;
use crate::rank::Rank;
use isis_base::{LspId, NodeId, OutOfMemory, SystemId};
use spf_tree::parts::number;
use spf_tree::{HopTable, Hops};
use std::alloc::Global;

/// The next hops of the candidates from one place to another, each once, in order.
pub fn hops_of(
    alloc: Global,
    candidates: &[Candidate],
    first: usize,
    end: usize,
    one: &HopTable,
    two: &HopTable,
) -> Result<Hops, OutOfMemory>
    requires order { first ≤ end }
    requires within { end ≤ length candidates.now }
    ensures rising { IfOk result (λ hops. IsStrictlyIncreasing hops) }
    ensures hops { IfOk result
        (λ hops. AreHopsIn (IsListedHop one.now two.now) candidates.now first end hops) }
{
    if end - first == 1 {
        return hops_to(alloc, &candidates[first], one, two);
    }
    let mut nodes = Vec::new(alloc);
    for place in first..end {
        let hops = match hops_to(alloc, &candidates[place], one, two) {
            Ok(hops) => hops,
            Err(error) => return Err(error),
        };
        match add_nodes(&hops, &mut nodes) {
            Ok(()) => {}
            Err(error) => return Err(error),
        }
    }
    let nodes = in_order(nodes);
    with_systems(alloc, nodes.as_slice())
}

/// The next hops of one candidate.
fn hops_to(
    alloc: Global,
    candidate: &Candidate,
    one: &HopTable,
    two: &HopTable,
) -> Result<Hops, OutOfMemory>
    ensures rising { IfOk result (λ hops. IsStrictlyIncreasing hops) }
    ensures hops { IfOk result (λ hops. (hop : ℕ)
        → Contains hops hop ↔ IsListedHop one.now two.now candidate.now hop) }
{
    match candidate.rank {
        Rank::Own => Ok(Hops::new(alloc)),
        Rank::One => one.hops(alloc, candidate.origin),
        Rank::Two => two.hops(alloc, candidate.origin),
        Rank::OneDown => one.hops(alloc, candidate.origin),
        Rank::Default => one.hops(alloc, candidate.origin),
    }
}

/// Adds the number of each system.
fn add_nodes(hops: &Hops, nodes: &mut Vec<u64>) -> Result<(), OutOfMemory>
    requires { All (λ node. is_system node ≡ true) nodes.old.items }
    ensures added { OnOk result (nodes.new.items ≡ nodes.old.items ++ hops.now) }
    ensures systems { OnOk result (All (λ node. is_system node ≡ true) nodes.new.items) }
{
    for place in 0..hops.len() {
        let Some(system) = hops.get(place) else {
            return Ok(());
        };
        match nodes.push(node_of(system)) {
            Ok(()) => {}
            Err(_) => return Err(OutOfMemory),
        }
    }
    Ok(())
}

/// The number of a system's own node.
fn node_of(system: SystemId) -> u64
    ensures same { result ≡ system_node system }
    ensures system { is_system result ≡ true }
{
    number(NodeId {
        system,
        pseudonode: 0,
    })
}

/// The nodes in order, each once.
fn in_order(mut nodes: Vec<u64>) -> Vec<u64>
    ensures rising { IsStrictlyIncreasing result.items }
    ensures all { (node : ℕ) → Contains nodes.items node → Contains result.items node }
    ensures none { (node : ℕ) → Contains result.items node → Contains nodes.items node }
{
    nodes.sort_unstable();
    nodes.dedup();
    nodes
}

/// The systems of numbers.
fn with_systems(alloc: Global, nodes: &[u64]) -> Result<Hops, OutOfMemory>
    requires { All (λ node. is_system node ≡ true) nodes.now }
    ensures { IfOk result (λ hops. hops ≡ nodes.now) }
{
    let mut hops = Hops::new(alloc);
    for place in 0..nodes.len() {
        match hops.push(system_of(nodes[place])) {
            Ok(()) => {}
            Err(error) => return Err(error),
        }
    }
    Ok(hops)
}

/// The system of a number.
fn system_of(node: u64) -> SystemId
    requires { is_system node ≡ true }
    ensures { system_node result ≡ node }
{
    LspId::from_number(node).node.system
}
