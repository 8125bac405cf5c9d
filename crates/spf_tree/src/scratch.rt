//! Distances from scratch.

ghost use Rattle.std.specs.Prelude.{IfOk};
ghost use Rattle.std.specs.List.{Contains};
ghost use Rattle.spf_tree.specs.Nodes.{node_number};
ghost use Rattle.spf_tree.specs.Distances.{AreDistances};

use crate::distances::Distances;
use crate::edges::place_of;
use crate::graph::{Graph, indexed};
use crate::indexed::IndexedRows;
use crate::labels::Labels;
use crate::node::number;
use crate::nodes::is_among;
use crate::queue::Queue;
use crate::search::run;
use crate::spans::spans_of;
use isis_base::{NodeId, OutOfMemory};
use std::alloc::Global;

/// The least costs of walks from the root. A node has one exactly where a walk reaches it.
pub fn from_scratch(alloc: Global, graph: &Graph, root: NodeId) -> Result<Distances, OutOfMemory>
    ensures { IfOk result (λ distances. AreDistances graph.now.rows (node_number root) distances) }
{
    let rows = indexed(graph);
    let start = number(root);
    if is_among(rows.nodes(), start) {
        return from_node(alloc, rows, start);
    }
    match rows.with_node(alloc, start) {
        Ok(rows) => from_node(alloc, &rows, start),
        Err(error) => Err(error),
    }
}

/// The least costs of walks from one of the nodes.
fn from_node(alloc: Global, rows: &IndexedRows, root: u64) -> Result<Distances, OutOfMemory>
    requires { Contains rows.now.nodes root }
    ensures { IfOk result (λ distances. AreDistances rows.now.rows root distances) }
{
    rows.kept();
    let place = place_of(rows.nodes(), root);
    let mut labels = match Labels::unlabelled(alloc, rows.nodes()) {
        Ok(labels) => labels,
        Err(error) => return Err(error),
    };
    let spans = match spans_of(alloc, rows.nodes(), rows.rows()) {
        Ok(spans) => spans,
        Err(error) => return Err(error),
    };
    let mut queue = Queue::new(alloc);
    match queue.push(0, place as u64) {
        Ok(()) => {}
        Err(error) => return Err(error),
    }
    match run(rows, spans.as_slice(), place, &mut labels, &mut queue) {
        Ok(()) => Ok(Distances::of(labels)),
        Err(error) => Err(error),
    }
}
