//! Labels: what a search knows so far, looked up by binary search.

ghost use Rattle.std.specs.Prelude.{◌≡◌, ◌≤◌, ◌<◌, ◌==◌, ℕ, Some, length, slice_index_or, if◌then◌else◌};
ghost use Rattle.std.specs.Bool.{OnTrue};
ghost use Rattle.std.specs.List.{Contains};
ghost use Rattle.spf_tree.specs.declared.label.Label.{Label};
ghost use Rattle.spf_tree.specs.Labels.{at};
ghost use Rattle.std.specs.Prelude.{None, IfOk, OnOk, map};
ghost use Rattle.std.specs.List.Sorted.{IsStrictlyIncreasing};
ghost use Rattle.spf_tree.specs.Labels.{IsPlace, IsRising, carry, names};
ghost use Rattle.spf_tree.specs.Places.{node_at};

use crate::label::Label;
use crate::nodes::unknown_labels;
use isis_base::OutOfMemory;
use std::alloc::Global;
use std::marker::Model;

/// The costs known so far, for a set of nodes that stays.
#[derive(Drop, Debug)]
pub struct Labels {
    items: Vec<Label>,
}

impl Model for Labels {
    ghost use Rattle.std.specs.Prelude.{List};
    ghost use Rattle.spf_tree.specs.declared.label.Label.{Label};
    ghost use Rattle.spf_tree.specs.Labels.{IsRising};

    ghost Value = { List Label };

    ghost view = { λ l. l.items.items };

    ghost invariant = { λ l. IsRising l.items.items };
}

/// The place of the first label whose node isn't below this one.
fn place(labels: &[Label], node: u64) -> usize
    requires { IsRising labels.now }
    ensures within { result ≤ length labels.now }
    ensures below { (k : ℕ) (d : Label) → k < result → (slice_index_or labels.now k d).node < node }
    ensures above { (k : ℕ) (d : Label) → result ≤ k → k < length labels.now
        → node ≤ (slice_index_or labels.now k d).node }
{
    let (mut low, mut high) = (0, labels.len());
    while low < high {
        let middle = low + (high - low) / 2;
        if labels[middle].node < node {
            low = middle + 1;
        } else {
            high = middle;
        }
    }
    low
}

/// The old cost of a node whose place is known, unless it is marked.
fn carry(old: &Labels, marks: &Labels, place: usize, node: u64) -> Label
    requires place { IsPlace old.now place node }
    requires marks { names marks.now ≡ names old.now }
    ensures { result ≡ carry old.now marks.now node }
{
    if marks.get_at(place, node).is_some() {
        return Label { node, cost: None };
    }
    let cost = old.get_at(place, node);
    Label { node, cost }
}

/// The place of the first label, from a place on, whose node isn't below this one.
fn next_place(labels: &[Label], from: usize, node: u64) -> usize
    requires rising { IsRising labels.now }
    requires below { (k : ℕ) (d : Label) → k < from → (slice_index_or labels.now k d).node < node }
    ensures { IsPlace labels.now result node }
{
    let mut place = from;
    while place < labels.len() && labels[place].node < node {
        place += 1;
    }
    place
}

/// Adds the node of a label, unless this is its cost.
fn add_unless_same(nodes: &mut Vec<u64>, label: Label, cost: Option<u64>) -> Result<(), OutOfMemory>
    ensures kept { OnOk result ((node : ℕ) → Contains nodes.old.items node
        → Contains nodes.new.items node) }
    ensures apart { OnOk result ((Contains nodes.new.items label.node → ⊥) → cost ≡ label.cost) }
{
    if cost == label.cost {
        return Ok(());
    }
    match nodes.push(label.node) {
        Ok(()) => Ok(()),
        Err(_) => Err(OutOfMemory),
    }
}

impl Labels {
    /// The old cost of each node, in order, unless it is marked.
    pub fn carried(
        alloc: Global,
        nodes: &[u64],
        old: &Labels,
        marks: &Labels,
    ) -> Result<Labels, OutOfMemory>
        requires rising { IsStrictlyIncreasing nodes.now }
        requires marks { names marks.now ≡ names old.now }
        ensures { IfOk result (λ labels. labels ≡ map (carry old.now marks.now) nodes.now) }
    {
        old.rising();
        let mut items = match Vec::with_capacity(alloc, nodes.len()) {
            Ok(items) => items,
            Err(_) => return Err(OutOfMemory),
        };
        let mut at = 0;
        for place in 0..nodes.len() {
            let node = nodes[place];
            at = next_place(old.items.as_slice(), at, node);
            match items.push(carry(old, marks, at, node)) {
                Ok(()) => {}
                Err(_) => return Err(OutOfMemory),
            }
        }
        Ok(Labels { items })
    }

    /// Adds each node whose cost isn't the one that other labels have.
    pub fn add_apart(&self, other: &Labels, nodes: &mut Vec<u64>) -> Result<(), OutOfMemory>
        ensures kept { OnOk result ((node : ℕ) → Contains nodes.old.items node
            → Contains nodes.new.items node) }
        ensures apart { OnOk result ((node : ℕ) → Contains (names self.now) node
            → (Contains nodes.new.items node → ⊥) → at other.now node ≡ at self.now node) }
    {
        other.rising();
        let mut at = 0;
        for place in 0..self.items.len() {
            let label = self.items[place];
            at = next_place(other.items.as_slice(), at, label.node);
            let cost = other.get_at(at, label.node);
            match add_unless_same(nodes, label, cost) {
                Ok(()) => {}
                Err(error) => return Err(error),
            }
        }
        Ok(())
    }

    /// The same nodes without costs.
    pub fn blank(&self, alloc: Global) -> Result<Labels, OutOfMemory>
        ensures names { IfOk result (λ labels. names labels ≡ names self.now) }
        ensures none { IfOk result (λ labels. (q : ℕ) → at labels q ≡ None) }
    {
        let mut items = match Vec::with_capacity(alloc, self.items.len()) {
            Ok(items) => items,
            Err(_) => return Err(OutOfMemory),
        };
        for label in self.items.as_slice() {
            match items.push(Label {
                node: label.node,
                cost: None,
            }) {
                Ok(()) => {}
                Err(_) => return Err(OutOfMemory),
            }
        }
        Ok(Labels { items })
    }

    /// A label without cost for each node.
    pub fn unlabelled(alloc: Global, nodes: &[u64]) -> Result<Labels, OutOfMemory>
        requires { IsStrictlyIncreasing nodes.now }
        ensures names { IfOk result (λ labels. names labels ≡ nodes.now) }
        ensures none { IfOk result (λ labels. (node : ℕ) → at labels node ≡ None) }
    {
        match unknown_labels(alloc, nodes) {
            Ok(items) => Ok(Labels { items }),
            Err(error) => Err(error),
        }
    }

    /// The labels are in order of node.
    pub fn rising(&self)
        ensures { IsRising self.now }
    {
        let _items = self.items.as_slice();
    }

    /// Equal labels.
    pub fn copy(&self) -> Result<Labels, OutOfMemory>
        ensures { IfOk result (λ copy. copy ≡ self.now) }
    {
        let items = self.items.clone()?;
        Ok(Labels { items })
    }

    /// The cost of a node; `None` exactly where none is known.
    pub fn get(&self, node: u64) -> Option<u64>
        ensures { result ≡ at self.now node }
    {
        let place = place(self.items.as_slice(), node);
        self.get_at(place, node)
    }

    /// The cost of a node whose place is known.
    fn get_at(&self, place: usize, node: u64) -> Option<u64>
        requires { IsPlace self.now place node }
        ensures { result ≡ at self.now node }
    {
        let labels = self.items.as_slice();
        if place >= labels.len() {
            return None;
        }
        if labels[place].node != node {
            return None;
        }
        labels[place].cost
    }

    /// Whether the node has a label, with or without a cost.
    pub fn has(&self, node: u64) -> bool
        ensures { OnTrue result (Contains (names self.now) node) }
    {
        let place = place(self.items.as_slice(), node);
        if place >= self.items.len() {
            return false;
        }
        self.items[place].node == node
    }

    /// Sets the cost of a node.
    pub fn set(&mut self, node: u64, cost: u64)
        requires { Contains (names self.old) node }
        ensures names { names self.new ≡ names self.old }
        ensures costs { (q : ℕ) → at self.new q ≡ (if q == node then Some cost else at self.old q) }
    {
        let place = place(self.items.as_slice(), node);
        self.items[place] = Label {
            node,
            cost: Some(cost),
        };
    }

    /// The cost of the node at a place.
    pub fn get_at_place(&self, place: usize) -> Option<u64>
        requires { place < length (names self.now) }
        ensures { result ≡ at self.now (node_at (names self.now) place) }
    {
        self.items[place].cost
    }

    /// Sets the cost of the node at a place.
    pub fn set_at_place(&mut self, place: usize, cost: u64)
        requires { place < length (names self.old) }
        ensures names { names self.new ≡ names self.old }
        ensures costs { (q : ℕ) → at self.new q
            ≡ (if q == node_at (names self.old) place then Some cost else at self.old q) }
    {
        let node = self.items[place].node;
        self.items[place] = Label {
            node,
            cost: Some(cost),
        };
    }
}
