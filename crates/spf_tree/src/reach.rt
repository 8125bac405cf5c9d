//! What tight rows lead to: rows whose metric is just the difference of their ends' costs, so that least walks are made
//! of them alone. Nodes are told by their places in order.

ghost use Rattle.std.specs.Prelude.{◌≡◌, ◌<◌, ◌≤◌, ◌+◌, ◌∷◌, [], true, length, IfOk, OnOk};
ghost use Rattle.std.specs.Bool.{MatchBool};
ghost use Rattle.std.specs.List.{Contains};
ghost use Rattle.spf_tree.specs.Labels.{names};
ghost use Rattle.spf_tree.specs.Exploring.{AreReached, IsStep, LeadsBy, IsTouched, IsSpreading, IsExploring, IsFront, goes_on, unmarked};
ghost use Rattle.spf_tree.specs.Places.{ArePlaces, AreSpans, IsSpan, node_at, nodes_at};

use crate::edge::{Edge, Span};
use crate::edges::place_of;
use crate::indexed::IndexedRows;
use crate::labels::Labels;
use crate::node::is_system;
use isis_base::OutOfMemory;
use std::alloc::Global;

/// The nodes that tight rows lead to from a node.
pub fn explore(
    alloc: Global,
    indexed: &IndexedRows,
    spans: &[Span],
    labels: &Labels,
    root: u64,
    all: bool,
    from: u64,
) -> Result<Vec<u64>, OutOfMemory>
    requires names { names labels.now ≡ indexed.now.nodes }
    requires spans { AreSpans indexed.now.nodes indexed.now.rows spans.now
        (length indexed.now.nodes) }
    requires root { Contains indexed.now.nodes root }
    ensures { IfOk result (λ nodes. AreReached indexed.now.rows root labels.now all from nodes.items) }
{
    indexed.kept();
    if labels.get(from).is_none() {
        return only(alloc, from);
    }
    let mut found = Vec::new(alloc);
    let first = place_of(indexed.nodes(), from);
    match found.push(first) {
        Ok(()) => {}
        Err(_) => return Err(OutOfMemory),
    }
    let mut marks = match labels.blank(alloc) {
        Ok(marks) => marks,
        Err(error) => return Err(error),
    };
    marks.set_at_place(first, 0);
    let start = place_of(indexed.nodes(), root);
    let mut many = 0;
    while many < found.len() {
        match visit(
            indexed, spans, labels, start, all, from, many, &mut marks, &mut found,
        ) {
            Ok(()) => {}
            Err(error) => return Err(error),
        }
        many += 1;
    }
    nodes_of(alloc, indexed.nodes(), found.as_slice())
}

/// A node alone.
fn only(alloc: Global, node: u64) -> Result<Vec<u64>, OutOfMemory>
    ensures { IfOk result (λ nodes. nodes.items ≡ node ∷ []) }
{
    let mut nodes = Vec::new(alloc);
    match nodes.push(node) {
        Ok(()) => Ok(nodes),
        Err(_) => Err(OutOfMemory),
    }
}

/// The nodes at places.
fn nodes_of(alloc: Global, nodes: &[u64], places: &[usize]) -> Result<Vec<u64>, OutOfMemory>
    requires { ArePlaces nodes.now places.now }
    ensures { IfOk result (λ v. v.items ≡ nodes_at nodes.now places.now) }
{
    let mut found = match Vec::with_capacity(alloc, places.len()) {
        Ok(found) => found,
        Err(_) => return Err(OutOfMemory),
    };
    for k in 0..places.len() {
        match found.push(nodes[places[k]]) {
            Ok(()) => {}
            Err(_) => return Err(OutOfMemory),
        }
    }
    Ok(found)
}

/// Goes on from the node that was found at a place of the list.
fn visit(
    indexed: &IndexedRows,
    spans: &[Span],
    labels: &Labels,
    root: usize,
    all: bool,
    from: u64,
    many: usize,
    marks: &mut Labels,
    found: &mut Vec<usize>,
) -> Result<(), OutOfMemory>
    requires names { names labels.now ≡ indexed.now.nodes }
    requires spans { AreSpans indexed.now.nodes indexed.now.rows spans.now
        (length indexed.now.nodes) }
    requires root { root < length indexed.now.nodes }
    requires named { names marks.old ≡ names labels.now }
    requires places { ArePlaces indexed.now.nodes found.old.items }
    requires so_far { IsExploring indexed.now.rows (node_at indexed.now.nodes root) labels.now all
        from marks.old (nodes_at indexed.now.nodes found.old.items) many }
    requires in_list { many < length found.old.items }
    ensures names { OnOk result (names marks.new ≡ names marks.old) }
    ensures places { OnOk result (ArePlaces indexed.now.nodes found.new.items) }
    ensures visited { OnOk result
        (IsExploring indexed.now.rows (node_at indexed.now.nodes root) labels.now all from marks.new
        (nodes_at indexed.now.nodes found.new.items) (many + 1)) }
    ensures few { OnOk result (unmarked marks.new + length found.new.items
        ≤ unmarked marks.old + length found.old.items) }
{
    let nodes = indexed.nodes();
    let place = found[many];
    if !goes_on(all, nodes[root], nodes[place]) {
        return Ok(());
    }
    let span = spans[place];
    match spread(
        indexed, span, labels, root, all, from, place, many, marks, found,
    ) {
        Ok(()) => Ok(()),
        Err(error) => Err(error),
    }
}

/// Whether a node is gone on from: every one, or the root and pseudonodes alone.
fn goes_on(all: bool, root: u64, node: u64) -> bool
    ensures { result ≡ goes_on all root node }
{
    all || node == root || !is_system(node)
}

/// Adds and marks what the rows from the node at a place lead to.
fn spread(
    indexed: &IndexedRows,
    span: Span,
    labels: &Labels,
    root: usize,
    all: bool,
    from: u64,
    place: usize,
    many: usize,
    marks: &mut Labels,
    found: &mut Vec<usize>,
) -> Result<(), OutOfMemory>
    requires names { names labels.now ≡ indexed.now.nodes }
    requires span { IsSpan indexed.now.rows (node_at indexed.now.nodes place) span }
    requires root { root < length indexed.now.nodes }
    requires place { place < length indexed.now.nodes }
    requires named { names marks.old ≡ names labels.now }
    requires places { ArePlaces indexed.now.nodes found.old.items }
    requires goes { goes_on all (node_at indexed.now.nodes root)
        (node_at indexed.now.nodes place) ≡ true }
    requires so_far { IsExploring indexed.now.rows (node_at indexed.now.nodes root) labels.now all
        from marks.old (nodes_at indexed.now.nodes found.old.items) many }
    requires at_node { Contains (nodes_at indexed.now.nodes found.old.items)
        (node_at indexed.now.nodes place) }
    ensures names { OnOk result (names marks.new ≡ names marks.old) }
    ensures places { OnOk result (ArePlaces indexed.now.nodes found.new.items) }
    ensures spread { OnOk result
        (IsSpreading indexed.now.rows (node_at indexed.now.nodes root) labels.now all from
        (node_at indexed.now.nodes place) marks.new (nodes_at indexed.now.nodes found.new.items)
        many (length indexed.now.rows)) }
    ensures front { OnOk result
        (IsFront (nodes_at indexed.now.nodes found.old.items)
        (nodes_at indexed.now.nodes found.new.items)) }
    ensures few { OnOk result (unmarked marks.new + length found.new.items
        ≤ unmarked marks.old + length found.old.items) }
{
    for row in span.first..span.past {
        match touch(labels, root, place, indexed.edge(row), marks, found) {
            Ok(()) => {}
            Err(error) => return Err(error),
        }
    }
    Ok(())
}

/// Adds the end of an edge and marks it, unless it isn't led to or is marked.
fn touch(
    labels: &Labels,
    root: usize,
    place: usize,
    edge: Edge,
    marks: &mut Labels,
    found: &mut Vec<usize>,
) -> Result<(), OutOfMemory>
    requires named { names marks.old ≡ names labels.now }
    requires root { root < length (names labels.now) }
    requires place { place < length (names labels.now) }
    requires end { edge.place < length (names labels.now) }
    requires places { ArePlaces (names labels.now) found.old.items }
    ensures names { OnOk result (names marks.new ≡ names marks.old) }
    ensures places { OnOk result (ArePlaces (names labels.now) found.new.items) }
    ensures touched { OnOk result
        (IsTouched labels.now (node_at (names labels.now) root) (node_at (names labels.now) place)
        (node_at (names labels.now) edge.place) edge.metric marks.old
        (nodes_at (names labels.now) found.old.items) marks.new
        (nodes_at (names labels.now) found.new.items)) }
{
    labels.rising();
    if edge.place == root {
        return Ok(());
    }
    if !is_step_at(labels, place, edge) {
        return Ok(());
    }
    if marks.get_at_place(edge.place).is_some() {
        return Ok(());
    }
    match found.push(edge.place) {
        Ok(()) => {}
        Err(_) => return Err(OutOfMemory),
    }
    marks.set_at_place(edge.place, 0);
    Ok(())
}

/// Whether the metric leads from the label at a place to that at the edge's end.
fn is_step_at(labels: &Labels, place: usize, edge: Edge) -> bool
    requires place { place < length (names labels.now) }
    requires end { edge.place < length (names labels.now) }
    ensures { MatchBool result
        (IsStep labels.now (node_at (names labels.now) place)
        (node_at (names labels.now) edge.place) edge.metric)
        (IsStep labels.now (node_at (names labels.now) place)
        (node_at (names labels.now) edge.place) edge.metric → ⊥) }
{
    leads_by(
        labels.get_at_place(place),
        labels.get_at_place(edge.place),
        edge.metric,
    )
}

/// Whether the metric leads from the node's label to the other's.
pub fn is_step(labels: &Labels, node: u64, to: u64, metric: u32) -> bool
    ensures { MatchBool result (IsStep labels.now node to metric) (IsStep labels.now node to metric
        → ⊥) }
{
    leads_by(labels.get(node), labels.get(to), metric)
}

/// Whether the metric is the difference of two costs.
fn leads_by(first: Option<u64>, second: Option<u64>, metric: u32) -> bool
    ensures { MatchBool result (LeadsBy first second metric) (LeadsBy first second metric → ⊥) }
{
    let (Some(first), Some(second)) = (first, second) else {
        return false;
    };
    let Some(sum) = first.checked_add(u64::from(metric)) else {
        return false;
    };
    sum == second
}
