//! Distances: the nodes that are reached, and their least costs.

ghost use Rattle.std.specs.Prelude.{◌≡◌, ℕ, Some, map, IfOk};
ghost use Rattle.std.specs.List.{Contains};
ghost use Rattle.std.specs.List.Sorted.{IsStrictlyIncreasing};
ghost use Rattle.spf_tree.specs.Nodes.{node_number};
ghost use Rattle.spf_tree.specs.Labels.{at, names};
ghost use Rattle.spf_tree.specs.Distances.{cost_at, reached};

use crate::labels::Labels;
use crate::node::number;
use isis_base::{NodeId, OutOfMemory};
use std::alloc::Global;
use std::marker::Model;

/// The nodes that are reached, each with its cost. Contracts see it as the list of their numbers and costs, in order of
/// node, so equal distances are one value.
#[derive(Drop, Debug)]
pub struct Distances {
    labels: Labels,
}

impl Model for Distances {
    ghost use Rattle.std.specs.Prelude.{ℕ, List};
    ghost use Rattle.spf_tree.specs.Distances.{reached};

    ghost Value = { List (ℕ × ℕ) };

    ghost view = { λ d. reached d.labels };
}

impl Distances {
    /// The distance of a node, `None` exactly where it isn't reached.
    pub fn get(&self, node: NodeId) -> Option<u64>
        ensures { result ≡ cost_at self.now (node_number node) }
    {
        self.labels().get(number(node))
    }

    /// Equal distances.
    pub fn copy(&self) -> Result<Distances, OutOfMemory>
        ensures { IfOk result (λ copy. copy ≡ self.now) }
    {
        let labels = self.labels.copy()?;
        Ok(Distances { labels })
    }

    /// The labels that they are kept in.
    pub fn labels(&self) -> &Labels
        ensures { (node : ℕ) → at result.now node ≡ cost_at self.now node }
    {
        self.labels.rising();
        &self.labels
    }

    /// The distances of labels.
    pub fn of(labels: Labels) -> Distances
        ensures same { (node : ℕ) → cost_at result node ≡ at labels node }
        ensures rising { IsStrictlyIncreasing (map (λ (entry : ℕ × ℕ). entry.0) result) }
    {
        labels.rising();
        Distances { labels }
    }

    /// The nodes whose distances aren't those that they have among others.
    pub fn apart(&self, alloc: Global, other: &Distances) -> Result<Vec<u64>, OutOfMemory>
        ensures { IfOk result (λ nodes. (node : ℕ) → (Contains nodes.items node → ⊥)
            → cost_at self.now node ≡ cost_at other.now node) }
    {
        let (old, new) = (self.labels(), other.labels());
        let mut nodes = Vec::new(alloc);
        match old.add_apart(new, &mut nodes) {
            Ok(()) => {}
            Err(error) => return Err(error),
        }
        match new.add_apart(old, &mut nodes) {
            Ok(()) => Ok(nodes),
            Err(error) => Err(error),
        }
    }

    /// The costs of these nodes alone.
    pub fn of_nodes(&self, alloc: Global, nodes: &[u64]) -> Result<Labels, OutOfMemory>
        requires { IsStrictlyIncreasing nodes.now }
        ensures names { IfOk result (λ labels. names labels ≡ nodes.now) }
        ensures from { IfOk result (λ labels. (node cost : ℕ) → at labels node ≡ Some cost
            → cost_at self.now node ≡ Some cost) }
        ensures into { IfOk result (λ labels. (node : ℕ) → Contains nodes.now node
            → at labels node ≡ cost_at self.now node) }
    {
        let labels = self.labels();
        let marks = match labels.blank(alloc) {
            Ok(marks) => marks,
            Err(error) => return Err(error),
        };
        match Labels::carried(alloc, nodes, labels, &marks) {
            Ok(costs) => Ok(costs),
            Err(error) => Err(error),
        }
    }
}
