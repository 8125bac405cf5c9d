//! Next hops of one target.

ghost use Rattle.std.specs.Prelude.{◌≡◌, ◌⊎◌, ◌↔◌, ℕ, true, [], None, length, IfOk, OnOk};
ghost use Rattle.std.specs.Bool.{MatchBool};
ghost use Rattle.std.specs.List.{All, Contains};
ghost use Rattle.std.specs.List.Sorted.{IsStrictlyIncreasing};
ghost use Rattle.spf_tree.specs.Nodes.{node_number, is_system};
ghost use Rattle.spf_tree.specs.Walks.{AreLeast};
ghost use Rattle.spf_tree.specs.Labels.{at, names};
ghost use Rattle.spf_tree.specs.Places.{AreSpans};
ghost use Rattle.spf_tree.specs.Distances.{cost_at, AreDistances};
ghost use Rattle.spf_tree.specs.NextHops.{IsNextHop};
ghost use Rattle.spf_tree.specs.Exploring.{LeadsOn, IsChosen, AreChosen};

use crate::distances::Distances;
use crate::edge::Span;
use crate::graph::{Graph, indexed};
use crate::hops::{Hops, hops_of};
use crate::indexed::IndexedRows;
use crate::labels::Labels;
use crate::node::{is_system, number, target_number};
use crate::nodes::{in_order, is_among};
use crate::reach::explore;
use crate::spans::spans_of;
use isis_base::{NodeId, OutOfMemory};
use std::alloc::Global;

/// Whether the node is a system other than the root from which tight rows lead to the target.
fn leads_on(
    alloc: Global,
    indexed: &IndexedRows,
    spans: &[Span],
    labels: &Labels,
    root: u64,
    target: u64,
    hop: u64,
) -> Result<bool, OutOfMemory>
    requires names { names labels.now ≡ indexed.now.nodes }
    requires spans { AreSpans indexed.now.nodes indexed.now.rows spans.now
        (length indexed.now.nodes) }
    requires root { Contains indexed.now.nodes root }
    ensures { IfOk result
        (λ leads. MatchBool leads (LeadsOn indexed.now.rows root labels.now target hop)
        (LeadsOn indexed.now.rows root labels.now target hop → ⊥)) }
{
    if hop == root {
        return Ok(false);
    }
    if !is_system(hop) {
        return Ok(false);
    }
    let reached = match explore(alloc, indexed, spans, labels, root, true, hop) {
        Ok(reached) => reached,
        Err(error) => return Err(error),
    };
    let leads = has(reached.as_slice(), target);
    Ok(leads)
}

/// Whether the node is in the list.
pub fn has(nodes: &[u64], node: u64) -> bool
    ensures { MatchBool result (Contains nodes.now node) (Contains nodes.now node → ⊥) }
{
    nodes.contains(&node)
}

/// Adds the node where tight rows lead on from it.
fn choose(
    alloc: Global,
    indexed: &IndexedRows,
    spans: &[Span],
    labels: &Labels,
    root: u64,
    target: u64,
    hop: u64,
    hops: &mut Vec<u64>,
) -> Result<(), OutOfMemory>
    requires names { names labels.now ≡ indexed.now.nodes }
    requires spans { AreSpans indexed.now.nodes indexed.now.rows spans.now
        (length indexed.now.nodes) }
    requires root { Contains indexed.now.nodes root }
    ensures { OnOk result
        (IsChosen indexed.now.rows root labels.now target hop hops.old.items hops.new.items) }
{
    let leads = match leads_on(alloc, indexed, spans, labels, root, target, hop) {
        Ok(leads) => leads,
        Err(error) => return Err(error),
    };
    if !leads {
        return Ok(());
    }
    match hops.push(hop) {
        Ok(()) => Ok(()),
        Err(_) => Err(OutOfMemory),
    }
}

/// The nodes of the list from which tight rows lead to the target.
fn chosen(
    alloc: Global,
    indexed: &IndexedRows,
    spans: &[Span],
    labels: &Labels,
    root: u64,
    target: u64,
    plain: &[u64],
) -> Result<Vec<u64>, OutOfMemory>
    requires names { names labels.now ≡ indexed.now.nodes }
    requires spans { AreSpans indexed.now.nodes indexed.now.rows spans.now
        (length indexed.now.nodes) }
    requires root { Contains indexed.now.nodes root }
    ensures { IfOk result (λ hops.
        AreChosen indexed.now.rows root labels.now target plain.now hops.items) }
{
    let mut hops = Vec::new(alloc);
    for place in 0..plain.len() {
        match choose(
            alloc,
            indexed,
            spans,
            labels,
            root,
            target,
            plain[place],
            &mut hops,
        ) {
            Ok(()) => {}
            Err(error) => return Err(error),
        }
    }
    Ok(hops)
}

/// The numbers of the first systems of the least walks to a target, in order, each once.
fn first_systems(
    alloc: Global,
    indexed: &IndexedRows,
    spans: &[Span],
    labels: &Labels,
    root: u64,
    target: u64,
) -> Result<Vec<u64>, OutOfMemory>
    requires names { names labels.now ≡ indexed.now.nodes }
    requires spans { AreSpans indexed.now.nodes indexed.now.rows spans.now
        (length indexed.now.nodes) }
    requires root { Contains indexed.now.nodes root }
    requires least { AreLeast indexed.now.rows root (at labels.now) }
    ensures rising { IfOk result (λ hops. IsStrictlyIncreasing hops.items) }
    ensures systems { IfOk result (λ hops. All (λ hop. is_system hop ≡ true) hops.items) }
    ensures hops { IfOk result (λ hops. (hop : ℕ)
        → Contains hops.items hop ↔ IsNextHop indexed.now.rows root target hop) }
    ensures empty { IfOk result (λ hops. is_system target ≡ true
        → (hops.items ≡ []) ↔ ((target ≡ root) ⊎ (at labels.now target ≡ None))) }
{
    let plain = match explore(alloc, indexed, spans, labels, root, false, root) {
        Ok(plain) => plain,
        Err(error) => return Err(error),
    };
    match chosen(
        alloc,
        indexed,
        spans,
        labels,
        root,
        target,
        plain.as_slice(),
    ) {
        Ok(hops) => Ok(in_order(hops)),
        Err(error) => Err(error),
    }
}

/// The first systems of the least walks to the target, a system: in order, each once. There is none exactly where the
/// target is the root or isn't reached.
pub fn next_hops(
    alloc: Global,
    graph: &Graph,
    distances: &Distances,
    root: NodeId,
    target: NodeId,
) -> Result<Hops, OutOfMemory>
    requires distances { AreDistances graph.now.rows (node_number root) distances.now }
    requires target { target.pseudonode ≡ 0 }
    ensures rising { IfOk result (λ hops. IsStrictlyIncreasing hops) }
    ensures hops { IfOk result (λ hops. (hop : ℕ)
        → Contains hops hop
        ↔ IsNextHop graph.now.rows (node_number root) (node_number target) hop) }
    ensures empty { IfOk result (λ hops. (hops ≡ [])
        ↔ ((node_number target ≡ node_number root)
        ⊎ (cost_at distances.now (node_number target) ≡ None))) }
{
    let rows = indexed(graph);
    let (start, end) = (number(root), target_number(target));
    if is_among(rows.nodes(), start) {
        return hops_from(alloc, rows, distances, start, end);
    }
    match rows.with_node(alloc, start) {
        Ok(rows) => hops_from(alloc, &rows, distances, start, end),
        Err(error) => Err(error),
    }
}

/// The first systems of the least walks to a system from one of the nodes.
fn hops_from(
    alloc: Global,
    rows: &IndexedRows,
    distances: &Distances,
    root: u64,
    target: u64,
) -> Result<Hops, OutOfMemory>
    requires root { Contains rows.now.nodes root }
    requires distances { AreDistances rows.now.rows root distances.now }
    requires target { is_system target ≡ true }
    ensures rising { IfOk result (λ hops. IsStrictlyIncreasing hops) }
    ensures hops { IfOk result (λ hops. (hop : ℕ)
        → Contains hops hop ↔ IsNextHop rows.now.rows root target hop) }
    ensures empty { IfOk result (λ hops. (hops ≡ [])
        ↔ ((target ≡ root) ⊎ (cost_at distances.now target ≡ None))) }
{
    rows.kept();
    let labels = match distances.of_nodes(alloc, rows.nodes()) {
        Ok(labels) => labels,
        Err(error) => return Err(error),
    };
    let spans = match spans_of(alloc, rows.nodes(), rows.rows()) {
        Ok(spans) => spans,
        Err(error) => return Err(error),
    };
    match first_systems(alloc, rows, spans.as_slice(), &labels, root, target) {
        Ok(hops) => hops_of(alloc, hops.as_slice()),
        Err(error) => Err(error),
    }
}
