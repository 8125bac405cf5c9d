//! Next hops of all targets at once: each first system is explored from once, whatever the number of targets.

ghost use Rattle.std.specs.Prelude.{◌≡◌, ◌≤◌, ◌<◌, ◌++◌, ◌↔◌, ℕ, length, map, slice_index_or, IfOk, OnOk};
ghost use Rattle.std.specs.Bool.{OnTrue};
ghost use Rattle.std.specs.List.{Contains};
ghost use Rattle.std.specs.List.Sorted.{IsStrictlyIncreasing, IsStrictlySortedBy};
ghost use Rattle.spf_tree.specs.Nodes.{node_number};
ghost use Rattle.spf_tree.specs.Walks.{AreLeast};
ghost use Rattle.spf_tree.specs.Labels.{at, names};
ghost use Rattle.spf_tree.specs.Places.{AreSpans};
ghost use Rattle.spf_tree.specs.Pairs.{pair_cmp};
ghost use Rattle.spf_tree.specs.Distances.{AreDistances};
ghost use Rattle.spf_tree.specs.NextHops.{IsNextHop};
ghost use Rattle.spf_tree.specs.Exploring.{IsTable, IsTabled, AreTabled, beside};

use crate::distances::Distances;
use crate::edge::Span;
use crate::graph::{Graph, indexed};
use crate::hops::Hops;
use crate::indexed::IndexedRows;
use crate::labels::Labels;
use crate::node::{is_system, number, system_of};
use crate::nodes::is_among;
use crate::reach::explore;
use crate::spans::spans_of;
use isis_base::{NodeId, OutOfMemory};
use std::alloc::Global;
use std::marker::Model;

/// Adds each node beside the hop.
fn add_reached(reached: &[u64], hop: u64, table: &mut Vec<(u64, u64)>) -> Result<(), OutOfMemory>
    ensures { OnOk result (table.new.items ≡ table.old.items ++ map (beside hop) reached.now) }
{
    for node in reached {
        match table.push((*node, hop)) {
            Ok(()) => {}
            Err(_) => return Err(OutOfMemory),
        }
    }
    Ok(())
}

/// Adds each node to which tight rows lead from a system other than the root, beside it.
fn table_hop(
    alloc: Global,
    indexed: &IndexedRows,
    spans: &[Span],
    labels: &Labels,
    root: u64,
    hop: u64,
    table: &mut Vec<(u64, u64)>,
) -> Result<(), OutOfMemory>
    requires names { names labels.now ≡ indexed.now.nodes }
    requires spans { AreSpans indexed.now.nodes indexed.now.rows spans.now
        (length indexed.now.nodes) }
    requires root { Contains indexed.now.nodes root }
    ensures { OnOk result
        (IsTabled indexed.now.rows root labels.now hop table.old.items table.new.items) }
{
    if hop == root {
        return Ok(());
    }
    if !is_system(hop) {
        return Ok(());
    }
    let reached = match explore(alloc, indexed, spans, labels, root, true, hop) {
        Ok(reached) => reached,
        Err(error) => return Err(error),
    };
    match add_reached(reached.as_slice(), hop, table) {
        Ok(()) => Ok(()),
        Err(error) => Err(error),
    }
}

/// The nodes to which tight rows lead from the systems of a list, beside them.
fn table_all(
    alloc: Global,
    indexed: &IndexedRows,
    spans: &[Span],
    labels: &Labels,
    root: u64,
    plain: &[u64],
) -> Result<Vec<(u64, u64)>, OutOfMemory>
    requires names { names labels.now ≡ indexed.now.nodes }
    requires spans { AreSpans indexed.now.nodes indexed.now.rows spans.now
        (length indexed.now.nodes) }
    requires root { Contains indexed.now.nodes root }
    ensures { IfOk result (λ table.
        AreTabled indexed.now.rows root labels.now plain.now table.items) }
{
    let mut table = Vec::new(alloc);
    for place in 0..plain.len() {
        match table_hop(
            alloc,
            indexed,
            spans,
            labels,
            root,
            plain[place],
            &mut table,
        ) {
            Ok(()) => {}
            Err(error) => return Err(error),
        }
    }
    Ok(table)
}

/// The pairs in order, each once.
fn pairs_in_order(mut pairs: Vec<(u64, u64)>) -> Vec<(u64, u64)>
    ensures rising { IsStrictlySortedBy pair_cmp result.items }
    ensures all { (pair : ℕ × ℕ) → Contains pairs.items pair → Contains result.items pair }
    ensures none { (pair : ℕ × ℕ) → Contains result.items pair → Contains pairs.items pair }
{
    pairs.sort_unstable();
    pairs.dedup();
    pairs
}

/// The place of the first pair whose target isn't below this one.
fn first_pair(pairs: &[(u64, u64)], target: u64) -> usize
    requires { IsTable pairs.now }
    ensures within { result ≤ length pairs.now }
    ensures below { (k : ℕ) (d : ℕ × ℕ) → k < result → (slice_index_or pairs.now k d).0 < target }
    ensures above { (k : ℕ) (d : ℕ × ℕ) → result ≤ k → k < length pairs.now
        → target ≤ (slice_index_or pairs.now k d).0 }
{
    let (mut low, mut high) = (0, pairs.len());
    while low < high {
        let middle = low + (high - low) / 2;
        if pairs[middle].0 < target {
            low = middle + 1;
        } else {
            high = middle;
        }
    }
    low
}

/// Each node beside each of its next hops. Contracts see it as the list of their numbers, in order.
#[derive(Drop, Debug)]
pub struct HopTable {
    pairs: Vec<(u64, u64)>,
}

impl Model for HopTable {
    ghost use Rattle.std.specs.Prelude.{ℕ, List};
    ghost use Rattle.spf_tree.specs.Exploring.{IsTable};

    ghost Value = { List (ℕ × ℕ) };

    ghost view = { λ t. t.pairs.items };

    ghost invariant = { λ t. IsTable t.pairs.items };
}

impl HopTable {
    /// The next hops of a target, in order, each once.
    pub fn hops(&self, alloc: Global, target: NodeId) -> Result<Hops, OutOfMemory>
        ensures rising { IfOk result (λ hops. IsStrictlyIncreasing hops) }
        ensures hops { IfOk result (λ hops. (hop : ℕ)
            → Contains hops hop ↔ Contains self.now (node_number target, hop)) }
    {
        hops_beside(alloc, self.pairs.as_slice(), number(target))
    }

    /// The nodes whose next hops aren't those of another table: some of either may be told that are the same.
    pub fn apart(&self, alloc: Global, other: &HopTable) -> Result<Vec<u64>, OutOfMemory>
        ensures { IfOk result (λ nodes. (target hop : ℕ) → (Contains nodes.items target → ⊥)
            → Contains self.now (target, hop) ↔ Contains other.now (target, hop)) }
    {
        let (old, new) = (self.pairs.as_slice(), other.pairs.as_slice());
        let mut nodes = Vec::new(alloc);
        match add_lacking(old, new, &mut nodes) {
            Ok(()) => {}
            Err(error) => return Err(error),
        }
        match add_lacking(new, old, &mut nodes) {
            Ok(()) => Ok(nodes),
            Err(error) => Err(error),
        }
    }
}

/// Adds a node, unless it is the last.
fn add_once(nodes: &mut Vec<u64>, node: u64) -> Result<(), OutOfMemory>
    ensures kept { OnOk result ((other : ℕ) → Contains nodes.old.items other
        → Contains nodes.new.items other) }
    ensures there { OnOk result (Contains nodes.new.items node) }
{
    if nodes.last() == Some(&node) {
        return Ok(());
    }
    match nodes.push(node) {
        Ok(()) => Ok(()),
        Err(_) => Err(OutOfMemory),
    }
}

/// Adds the targets of pairs that another table lacks. Both are in order, so each is walked through once.
fn add_lacking(
    table: &[(u64, u64)],
    other: &[(u64, u64)],
    nodes: &mut Vec<u64>,
) -> Result<(), OutOfMemory>
    ensures kept { OnOk result ((node : ℕ) → Contains nodes.old.items node
        → Contains nodes.new.items node) }
    ensures lacking { OnOk result ((pair : ℕ × ℕ) → Contains table.now pair
        → (Contains nodes.new.items pair.0 → ⊥) → Contains other.now pair) }
{
    let mut at = 0;
    for place in 0..table.len() {
        at = first_from(other, at, table[place]);
        match add_unless_at(table[place], other, at, nodes) {
            Ok(()) => {}
            Err(error) => return Err(error),
        }
    }
    Ok(())
}

/// The first place from this one on whose pair isn't below another.
fn first_from(table: &[(u64, u64)], start: usize, pair: (u64, u64)) -> usize
    ensures { start ≤ result }
{
    let mut at = start;
    while at < table.len() && table[at] < pair {
        at += 1;
    }
    at
}

/// Adds the target of a pair, unless a table has the pair at this place.
fn add_unless_at(
    pair: (u64, u64),
    other: &[(u64, u64)],
    at: usize,
    nodes: &mut Vec<u64>,
) -> Result<(), OutOfMemory>
    ensures kept { OnOk result ((node : ℕ) → Contains nodes.old.items node
        → Contains nodes.new.items node) }
    ensures lacking { OnOk result ((Contains nodes.new.items pair.0 → ⊥)
        → Contains other.now pair) }
{
    if at < other.len() && other[at] == pair {
        return Ok(());
    }
    match add_once(nodes, pair.0) {
        Ok(()) => Ok(()),
        Err(error) => Err(error),
    }
}

/// The hops beside a target.
fn hops_beside(alloc: Global, pairs: &[(u64, u64)], target: u64) -> Result<Hops, OutOfMemory>
    requires { IsTable pairs.now }
    ensures rising { IfOk result (λ hops. IsStrictlyIncreasing hops) }
    ensures hops { IfOk result (λ hops. (hop : ℕ)
        → Contains hops hop ↔ Contains pairs.now (target, hop)) }
{
    let mut hops = Hops::new(alloc);
    for place in first_pair(pairs, target)..pairs.len() {
        let (to, hop) = pairs[place];
        if to != target {
            return Ok(hops);
        }
        match hops.push(system_of(hop)) {
            Ok(()) => {}
            Err(error) => return Err(error),
        }
    }
    Ok(hops)
}

/// The next hops of all targets: what `next_hops` would tell of each, without exploring anew for each. It is public for
/// the route table, which asks for the hops of thousands of targets after each change.
pub fn all_next_hops(
    alloc: Global,
    graph: &Graph,
    distances: &Distances,
    root: NodeId,
) -> Result<HopTable, OutOfMemory>
    requires { AreDistances graph.now.rows (node_number root) distances.now }
    ensures { IfOk result (λ table. (target hop : ℕ)
        → Contains table (target, hop) ↔ IsNextHop graph.now.rows (node_number root) target hop) }
{
    let rows = indexed(graph);
    let start = number(root);
    if is_among(rows.nodes(), start) {
        return table_from(alloc, rows, distances, start);
    }
    match rows.with_node(alloc, start) {
        Ok(rows) => table_from(alloc, &rows, distances, start),
        Err(error) => Err(error),
    }
}

/// The next hops of all targets from one of the nodes.
fn table_from(
    alloc: Global,
    rows: &IndexedRows,
    distances: &Distances,
    root: u64,
) -> Result<HopTable, OutOfMemory>
    requires root { Contains rows.now.nodes root }
    requires distances { AreDistances rows.now.rows root distances.now }
    ensures { IfOk result (λ table. (target hop : ℕ)
        → Contains table (target, hop) ↔ IsNextHop rows.now.rows root target hop) }
{
    rows.kept();
    let labels = match distances.of_nodes(alloc, rows.nodes()) {
        Ok(labels) => labels,
        Err(error) => return Err(error),
    };
    let spans = match spans_of(alloc, rows.nodes(), rows.rows()) {
        Ok(spans) => spans,
        Err(error) => return Err(error),
    };
    match pairs(alloc, rows, spans.as_slice(), &labels, root) {
        Ok(pairs) => Ok(HopTable { pairs }),
        Err(error) => Err(error),
    }
}

/// Each node beside each of its next hops, as numbers, in order.
fn pairs(
    alloc: Global,
    indexed: &IndexedRows,
    spans: &[Span],
    labels: &Labels,
    root: u64,
) -> Result<Vec<(u64, u64)>, OutOfMemory>
    requires names { names labels.now ≡ indexed.now.nodes }
    requires spans { AreSpans indexed.now.nodes indexed.now.rows spans.now
        (length indexed.now.nodes) }
    requires root { Contains indexed.now.nodes root }
    requires least { AreLeast indexed.now.rows root (at labels.now) }
    ensures table { IfOk result (λ table. IsTable table.items) }
    ensures hops { IfOk result (λ table. (target hop : ℕ)
        → Contains table.items (target, hop) ↔ IsNextHop indexed.now.rows root target hop) }
{
    let plain = match explore(alloc, indexed, spans, labels, root, false, root) {
        Ok(plain) => plain,
        Err(error) => return Err(error),
    };
    match table_all(alloc, indexed, spans, labels, root, plain.as_slice()) {
        Ok(table) => Ok(pairs_in_order(table)),
        Err(error) => Err(error),
    }
}
