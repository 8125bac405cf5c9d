//! Repaired distances.

ghost use Rattle.std.specs.Prelude.{◌≡◌, ◌<◌, ◌≤◌, ◌+◌, ◌-◌, ◌^◌, ℕ, length, min, IfOk, IsOk, OnOk, OnErr};
ghost use Rattle.spf_tree.specs.declared.row.Row.{Row};
ghost use Rattle.spf_tree.specs.Nodes.{node_number};
ghost use Rattle.spf_tree.specs.Graphs.{times};
ghost use Rattle.spf_tree.specs.Distances.{cost_at, AreDistances, AreSmall};
ghost use Rattle.spf_repair.specs.Change.{AreChanged, IsBound, OnlyFalls};

use crate::change::repair;
use crate::replace::{RowsAfter, replaced};
use crate::steps::Steps;
use isis_base::{NodeId, OutOfMemory};
use spf_tree::parts::{number, rows_in_order, with_rows};
use spf_tree::{Distances, Graph, Row, from_scratch};
use std::alloc::Global;
use std::marker::Model;
use std::sync::ledger::Ledger;

/// A graph and the distances from a root, kept while rows come and go.
#[derive(Drop)]
pub struct Repaired {
    alloc: Global,
    graph: Graph,
    root: NodeId,
    distances: Distances,
    changes: u64,
}

impl Model for Repaired {
    ghost use Rattle.spf_tree.specs.Nodes.{node_number};
    ghost use Rattle.spf_tree.specs.Distances.{AreDistances};
    ghost use Rattle.spf_repair.specs.Changes.{RepairedOf};

    ghost Value = { RepairedOf };

    ghost view = { λ r. record { graph = r.graph; root = r.root; distances = r.distances; changes = r.changes } };

    ghost invariant = { λ r. AreDistances r.graph.rows (node_number r.root) r.distances };
}

impl Repaired {
    /// The distances of a graph from a root, from scratch, with no change yet.
    pub fn new(alloc: Global, graph: &Graph, root: NodeId) -> Result<Repaired, OutOfMemory>
        ensures graph { IfOk result (λ r. r.graph ≡ graph.now) }
        ensures root { IfOk result (λ r. r.root ≡ root) }
        ensures changes { IfOk result (λ r. r.changes ≡ 0) }
        ensures distances { IfOk result
            (λ r. AreDistances graph.now.rows (node_number root) r.distances) }
    {
        let distances = from_scratch(alloc, graph, root)?;
        let graph = graph.copy()?;
        Ok(Repaired {
            alloc,
            graph,
            root,
            distances,
            changes: 0,
        })
    }

    /// Takes rows out and puts rows in; then the distances are those of the rows that are there. A step is a removed or
    /// added row looked at, or a node settled. At `OutOfMemory` all is as it was, but steps may have been taken.
    pub fn change<L: Ledger>(
        &mut self,
        removed: &[Row],
        added: &[Row],
        steps: &mut Steps<L>,
    ) -> Result<(), OutOfMemory>
        requires there { (x : Row) → times removed.now x ≤ times self.old.graph.rows x }
        requires few { length self.old.graph.rows + length added.now < 2 ^ 32 + length removed.now }
        ensures rows { OnOk result ((x : Row) → times self.new.graph.rows x + times removed.now x
            ≡ times self.old.graph.rows x + times added.now x) }
        ensures graph_root { self.new.graph.root ≡ self.old.graph.root }
        ensures root { self.new.root ≡ self.old.root }
        ensures distances { AreDistances self.new.graph.rows
            (node_number self.new.root) self.new.distances }
        ensures changes { OnOk result (0 < length removed.now + length added.now
            → self.new.changes ≡ min (self.old.changes + 1) (2 ^ 64 - 1)) }
        ensures none { length removed.now + length added.now ≡ 0
            → IsOk result × (self.new ≡ self.old) × (steps.new ≡ steps.old) }
        ensures bound { OnOk result (OnlyFalls removed.now added.now
            → IsBound (cost_at self.old.distances) (cost_at self.new.distances) (length removed.now
            + length added.now) steps.old steps.new) }
        ensures err { OnErr result (self.new ≡ self.old) }
    {
        let _graph = &self.graph;
        if removed.len() == 0 && added.len() == 0 {
            return Ok(());
        }
        match self.changed(removed, added, steps) {
            Ok(changed) => {
                *self = changed;
                Ok(())
            }
            Err(error) => Err(error),
        }
    }

    /// What it becomes once rows are taken out and put in, in a value of its own, with one change more.
    pub fn changed<L: Ledger>(
        &self,
        removed: &[Row],
        added: &[Row],
        steps: &mut Steps<L>,
    ) -> Result<Repaired, OutOfMemory>
        requires there { (x : Row) → times removed.now x ≤ times self.now.graph.rows x }
        requires few { length self.now.graph.rows + length added.now < 2 ^ 32 + length removed.now }
        ensures rows { IfOk result (λ r. (x : Row) → times r.graph.rows x + times removed.now x
            ≡ times self.now.graph.rows x + times added.now x) }
        ensures graph_root { IfOk result (λ r. r.graph.root ≡ self.now.graph.root) }
        ensures root { IfOk result (λ r. r.root ≡ self.now.root) }
        ensures changes { IfOk result (λ r. r.changes ≡ min (self.now.changes + 1) (2 ^ 64 - 1)) }
        ensures bound { IfOk result (λ r. OnlyFalls removed.now added.now
            → IsBound (cost_at self.now.distances) (cost_at r.distances) (length removed.now
            + length added.now) steps.old steps.new) }
    {
        let alloc = self.alloc;
        let graph = match exchanged(alloc, &self.graph, removed, added) {
            Ok(graph) => graph,
            Err(error) => return Err(error),
        };
        let before = rows_in_order(&self.graph);
        let old = self.distances.labels();
        let root = number(self.root);
        let labels = match repair(alloc, before, &graph, root, old, removed, added, steps) {
            Ok(labels) => labels,
            Err(error) => return Err(error),
        };
        Ok(Repaired {
            alloc,
            graph,
            root: self.root,
            distances: Distances::of(labels),
            changes: self.changes.saturating_add(1),
        })
    }

    /// The distances.
    pub fn distances(&self) -> &Distances
        ensures same { result.now ≡ self.now.distances }
        ensures distances { AreDistances self.now.graph.rows
            (node_number self.now.root) result.now }
        ensures small { AreSmall result.now }
    {
        let _rows = rows_in_order(&self.graph);
        &self.distances
    }

    /// The graph.
    pub fn graph(&self) -> &Graph
        ensures { result.now ≡ self.now.graph }
    {
        &self.graph
    }

    /// The number of changes; it stays at its last value.
    pub fn changes(&self) -> u64
        ensures { result ≡ self.now.changes }
    {
        self.changes
    }

    /// Equal repaired distances, with the same number of changes.
    pub fn copy(&self) -> Result<Repaired, OutOfMemory>
        ensures { IfOk result (λ copy. copy ≡ self.now) }
    {
        let graph = self.graph.copy()?;
        let distances = self.distances.copy()?;
        Ok(Repaired {
            alloc: self.alloc,
            graph,
            root: self.root,
            distances,
            changes: self.changes,
        })
    }
}

/// A graph with rows taken out and rows put in.
fn exchanged(
    alloc: Global,
    graph: &Graph,
    removed: &[Row],
    added: &[Row],
) -> Result<Graph, OutOfMemory>
    requires there { (x : Row) → times removed.now x ≤ times graph.now.rows x }
    requires few { length graph.now.rows + length added.now < 2 ^ 32 + length removed.now }
    ensures rows { IfOk result (λ new. (x : Row) → times new.rows x + times removed.now x
        ≡ times graph.now.rows x + times added.now x) }
    ensures root { IfOk result (λ new. new.root ≡ graph.now.root) }
    ensures differ { IfOk result
        (λ new. AreChanged graph.now.rows new.rows removed.now added.now) }
{
    let before = rows_in_order(graph);
    let replaced = match replaced(alloc, before, removed, added) {
        Ok(replaced) => replaced,
        Err(error) => return Err(error),
    };
    let RowsAfter { rows, same } = replaced;
    match with_rows(alloc, graph, rows, added, same) {
        Ok(new) => Ok(new),
        Err(error) => Err(error),
    }
}
