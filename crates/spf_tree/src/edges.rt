//! Rows as edges: the place of each row's end.

ghost use Rattle.std.specs.Prelude.{◌≡◌, ◌≤◌, ◌<◌, ℕ, length, IfOk};
ghost use Rattle.std.specs.Option.{IfSome};
ghost use Rattle.std.specs.List.{All, Contains};
ghost use Rattle.std.specs.List.Sorted.{IsStrictlyIncreasing};
ghost use Rattle.spf_tree.specs.declared.row.Row.{Row};
ghost use Rattle.spf_tree.specs.declared.edge.Edge.{Edge};
ghost use Rattle.spf_tree.specs.Walks.{end};
ghost use Rattle.spf_tree.specs.Places.{AreAmong, AreEdges, HaveEnds, node_at};

use crate::edge::{Edge, Ends};
use crate::node::number;
use crate::row::Row;
use isis_base::OutOfMemory;
use std::alloc::Global;

/// The place of a row's end, and the place among the old rows where the next row is looked for.
#[derive(Clone, Copy)]
struct Found {
    place: usize,
    next: usize,
}

/// The edge of each row. Those at the ends are known of old rows; between them rows that follow each other as old ones do have
/// the places of those, and the others are searched.
pub fn edges_of(
    alloc: Global,
    nodes: &[u64],
    rows: &[Row],
    old: &[Row],
    known: &[Edge],
    same: Ends,
) -> Result<Vec<Edge>, OutOfMemory>
    requires rising { IsStrictlyIncreasing nodes.now }
    requires same { HaveEnds old.now rows.now same }
    requires ends { (row : Row) → Contains rows.now row → Contains nodes.now (end row) }
    requires known { AreEdges nodes.now old.now known.now (length old.now) }
    ensures { IfOk result (λ edges. AreEdges nodes.now rows.now edges.items (length rows.now)) }
{
    let mut edges = match Vec::with_capacity(alloc, rows.len()) {
        Ok(edges) => edges,
        Err(_) => return Err(OutOfMemory),
    };
    match edges.extend_from_slice(&known[..same.first]) {
        Ok(()) => {}
        Err(_) => return Err(OutOfMemory),
    }
    let mut from = same.first;
    for place in same.first..rows.len() - same.last {
        let row = &rows[place];
        let found = find(nodes, row, old, known, from);
        from = found.next;
        match edges.push(Edge {
            place: found.place,
            metric: row.metric,
        }) {
            Ok(()) => {}
            Err(_) => return Err(OutOfMemory),
        }
    }
    match edges.extend_from_slice(&known[known.len() - same.last..]) {
        Ok(()) => Ok(edges),
        Err(_) => Err(OutOfMemory),
    }
}

/// The edges of rows by their places among other nodes, where all the old ones are.
pub fn moved(
    alloc: Global,
    nodes: &[u64],
    old_nodes: &[u64],
    rows: &[Row],
    known: &[Edge],
) -> Result<Vec<Edge>, OutOfMemory>
    requires rising { IsStrictlyIncreasing nodes.now }
    requires all { (node : ℕ) → Contains old_nodes.now node → Contains nodes.now node }
    requires known { AreEdges old_nodes.now rows.now known.now (length rows.now) }
    ensures { IfOk result (λ edges. AreEdges nodes.now rows.now edges.items (length rows.now)) }
{
    let places = match places_among(alloc, nodes, old_nodes) {
        Ok(places) => places,
        Err(error) => return Err(error),
    };
    let mut edges = match Vec::with_capacity(alloc, known.len()) {
        Ok(edges) => edges,
        Err(_) => return Err(OutOfMemory),
    };
    for row in 0..rows.len() {
        let edge = known[row];
        match edges.push(Edge {
            place: places[edge.place],
            metric: edge.metric,
        }) {
            Ok(()) => {}
            Err(_) => return Err(OutOfMemory),
        }
    }
    Ok(edges)
}

/// The places of old nodes among nodes, where all of them are.
fn places_among(alloc: Global, nodes: &[u64], old: &[u64]) -> Result<Vec<usize>, OutOfMemory>
    requires rising { IsStrictlyIncreasing nodes.now }
    requires all { (node : ℕ) → Contains old.now node → Contains nodes.now node }
    ensures { IfOk result (λ places. AreAmong nodes.now old.now places.items (length old.now)) }
{
    let mut places = match Vec::with_capacity(alloc, old.len()) {
        Ok(places) => places,
        Err(_) => return Err(OutOfMemory),
    };
    let mut from = 0;
    for node in 0..old.len() {
        let place = near_place(nodes, old[node], from);
        from = place.saturating_add(1);
        match places.push(place) {
            Ok(()) => {}
            Err(_) => return Err(OutOfMemory),
        }
    }
    Ok(places)
}

/// The place of a node that is among the nodes. Where it may stand is looked at first.
fn near_place(nodes: &[u64], node: u64, from: usize) -> usize
    requires rising { IsStrictlyIncreasing nodes.now }
    requires there { Contains nodes.now node }
    ensures within { result < length nodes.now }
    ensures node { node_at nodes.now result ≡ node }
{
    if from < nodes.len() && nodes[from] == node {
        return from;
    }
    place_of(nodes, node)
}

/// The place of a row's end, by the old row at a place or soon behind it where that ends at the same node.
fn find(nodes: &[u64], row: &Row, old: &[Row], known: &[Edge], from: usize) -> Found
    requires rising { IsStrictlyIncreasing nodes.now }
    requires end { Contains nodes.now (end row.now) }
    requires known { AreEdges nodes.now old.now known.now (length old.now) }
    ensures within { result.place < length nodes.now }
    ensures node { node_at nodes.now result.place ≡ end row.now }
{
    let end = number(row.to);
    if let Some(place) = place_by(nodes, end, known, from) {
        let next = from.saturating_add(1);
        return Found { place, next };
    }
    let near = catch_up(old, from, row);
    if let Some(place) = place_by(nodes, end, known, near) {
        let next = near.saturating_add(1);
        return Found { place, next };
    }
    Found {
        place: place_of(nodes, end),
        next: near,
    }
}

/// The place of a node, where the old row at a place ends there.
fn place_by(nodes: &[u64], end: u64, known: &[Edge], from: usize) -> Option<usize>
    requires { All (λ (edge : Edge). edge.place < length nodes.now) known.now }
    ensures { IfSome result (λ place. (place < length nodes.now) × (node_at nodes.now place ≡ end)) }
{
    if from >= known.len() {
        return None;
    }
    let place = known[from].place;
    if nodes[place] != end {
        return None;
    }
    Some(place)
}

/// The place of the first old row, from a place on, that the row isn't behind.
fn catch_up(old: &[Row], from: usize, row: &Row) -> usize {
    let mut place = from;
    while place < old.len() && is_before(&old[place], row) {
        place += 1;
    }
    place
}

/// Whether a row's ends come before those of another.
fn is_before(a: &Row, b: &Row) -> bool {
    let (first, second) = (number(a.from), number(b.from));
    first < second || first == second && number(a.to) < number(b.to)
}

/// The place of a node that is among the nodes.
pub fn place_of(nodes: &[u64], node: u64) -> usize
    requires rising { IsStrictlyIncreasing nodes.now }
    requires there { Contains nodes.now node }
    ensures within { result < length nodes.now }
    ensures node { node_at nodes.now result ≡ node }
{
    match nodes.binary_search(&node) {
        Ok(place) => place,
        Err(place) => place,
    }
}
