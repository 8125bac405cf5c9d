//! The search for least costs (ISO 10589 C.2): the least offer settles its node, which offers on. Nodes are told by their
//! places in order, so that neither rows nor labels are searched.

ghost use Rattle.std.specs.Prelude.{◌≡◌, ◌<◌, ◌+◌, length, [], OnOk, IfOk};
ghost use Rattle.std.specs.Bool.{MatchBool};
ghost use Rattle.spf_tree.specs.Walks.{AreLeast};
ghost use Rattle.spf_tree.specs.Labels.{at, names};
ghost use Rattle.spf_tree.specs.Search.{IsOffered, HaveOffered, IsSearch, work};
ghost use Rattle.spf_tree.specs.Places.{AreSpans, AreToPlaces, IsSpan, node_at, offers_at};

use crate::edge::{Edge, Span};
use crate::indexed::IndexedRows;
use crate::labels::Labels;
use crate::queue::Queue;
use isis_base::OutOfMemory;

/// Labels each node that a walk from the root reaches with the least cost of such a walk.
pub fn run(
    indexed: &IndexedRows,
    spans: &[Span],
    root: usize,
    labels: &mut Labels,
    queue: &mut Queue,
) -> Result<(), OutOfMemory>
    requires names { names labels.old ≡ indexed.now.nodes }
    requires spans { AreSpans indexed.now.nodes indexed.now.rows spans.now
        (length indexed.now.nodes) }
    requires root { root < length indexed.now.nodes }
    requires places { AreToPlaces indexed.now.nodes queue.old }
    requires search { IsSearch indexed.now.rows (node_at indexed.now.nodes root) labels.old
        (offers_at indexed.now.nodes queue.old) }
    ensures { OnOk result
        (AreLeast indexed.now.rows (node_at indexed.now.nodes root) (at labels.new)) }
{
    indexed.kept();
    loop {
        match step(indexed, spans, root, labels, queue) {
            Ok(true) => {}
            Ok(false) => return Ok(()),
            Err(error) => return Err(error),
        }
    }
}

/// Settles the node with the least offer, unless it has a label. `false` where there is no offer.
fn step(
    indexed: &IndexedRows,
    spans: &[Span],
    root: usize,
    labels: &mut Labels,
    queue: &mut Queue,
) -> Result<bool, OutOfMemory>
    requires names { names labels.old ≡ indexed.now.nodes }
    requires spans { AreSpans indexed.now.nodes indexed.now.rows spans.now
        (length indexed.now.nodes) }
    requires root { root < length indexed.now.nodes }
    requires places { AreToPlaces indexed.now.nodes queue.old }
    requires search { IsSearch indexed.now.rows (node_at indexed.now.nodes root) labels.old
        (offers_at indexed.now.nodes queue.old) }
    ensures names { names labels.new ≡ names labels.old }
    ensures places { OnOk result (AreToPlaces indexed.now.nodes queue.new) }
    ensures search { OnOk result
        (IsSearch indexed.now.rows (node_at indexed.now.nodes root) labels.new
        (offers_at indexed.now.nodes queue.new)) }
    ensures less { IfOk result
        (λ more. MatchBool more
        (work indexed.now.rows labels.new (offers_at indexed.now.nodes queue.new)
        < work indexed.now.rows labels.old (offers_at indexed.now.nodes queue.old))
        (queue.new ≡ [])) }
{
    indexed.kept();
    let Some((cost, offered)) = queue.pop() else {
        return Ok(false);
    };
    let place = offered as usize;
    if labels.get_at_place(place).is_some() {
        return Ok(true);
    }
    labels.set_at_place(place, cost);
    match offer_span(indexed, spans[place], root, labels, place, cost, queue) {
        Ok(()) => Ok(true),
        Err(error) => Err(error),
    }
}

/// Offers what the rows from the node at a place give at this cost.
fn offer_span(
    indexed: &IndexedRows,
    span: Span,
    root: usize,
    labels: &Labels,
    place: usize,
    cost: u64,
    queue: &mut Queue,
) -> Result<(), OutOfMemory>
    requires names { names labels.now ≡ indexed.now.nodes }
    requires root { root < length indexed.now.nodes }
    requires span { IsSpan indexed.now.rows (node_at indexed.now.nodes place) span }
    requires places { AreToPlaces indexed.now.nodes queue.old }
    ensures places { OnOk result (AreToPlaces indexed.now.nodes queue.new) }
    ensures offered { OnOk result
        (HaveOffered indexed.now.rows (node_at indexed.now.nodes root) labels.now
        (node_at indexed.now.nodes place) cost (offers_at indexed.now.nodes queue.old)
        (offers_at indexed.now.nodes queue.new) (length indexed.now.rows)) }
{
    indexed.kept();
    for row in span.first..span.past {
        match offer(labels, root, indexed.edge(row), cost, queue) {
            Ok(()) => {}
            Err(error) => return Err(error),
        }
    }
    Ok(())
}

/// Offers the node at an edge's end the sum of a cost and the metric, unless that is no news.
fn offer(
    labels: &Labels,
    root: usize,
    edge: Edge,
    cost: u64,
    queue: &mut Queue,
) -> Result<(), OutOfMemory>
    requires root { root < length (names labels.now) }
    requires end { edge.place < length (names labels.now) }
    requires places { AreToPlaces (names labels.now) queue.old }
    ensures places { OnOk result (AreToPlaces (names labels.now) queue.new) }
    ensures offered { OnOk result
        (IsOffered labels.now (node_at (names labels.now) root)
        (node_at (names labels.now) edge.place) (cost + edge.metric)
        (offers_at (names labels.now) queue.old) (offers_at (names labels.now) queue.new)) }
{
    labels.rising();
    if edge.place == root {
        return Ok(());
    }
    let Some(sum) = cost.checked_add(u64::from(edge.metric)) else {
        return Ok(());
    };
    if let Some(held) = labels.get_at_place(edge.place) {
        if held <= sum {
            return Ok(());
        }
    }
    match queue.push(sum, edge.place as u64) {
        Ok(()) => Ok(()),
        Err(error) => Err(error),
    }
}
