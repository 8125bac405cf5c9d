//! The graph of a level, least walks from its root, and the next hops that they begin with.
//!
//! Which rows may be walked is ISO 10589 7.2.8, least walks are those of ISO 10589 C.2, and a metric is one of 24 bits
//! (RFC 5305 3), of which the greatest is walked by nobody. Costs are sums in 64 bits. Own: walks with circles of metric
//! 0 count among the least, so all next hops over all of them are told; nothing here speaks of levels or of LSPs.
//!
//! Nodes stand in order, and a search tells them by their places: costs, the rows of a node and the end of a row are then
//! read at a place, and not looked up.
//!
//! - `row.rt`: the rows; `node.rt`, `nodes.rt`: nodes as numbers, in order
//! - `choice.rt`: which rows may be walked; `graph.rt`: the graph of them
//! - `edge.rt`: rows by places; `edges.rt`: the end of each row; `spans.rt`: the rows of each node; `indexed.rt`: rows with
//!   their nodes and ends
//! - `label.rt`, `labels.rt`: costs known so far; `queue.rt`: offers that wait; `search.rt`: the search
//! - `distances.rt`: what a search ends with; `scratch.rt`: distances from scratch
//! - `reach.rt`: what least walks lead to; `next.rt`: next hops of one target; `table.rt`: of all targets at once
//! - `hops.rt`: lists of systems
//! - `offers.rt`: offers by numbers of nodes, for the crate that repairs distances
//! - `laws.rt`: what follows for all rows
//!
//! Choices (own):
//!
//! - `Distances` keeps unreached nodes inside; contracts see the reached ones; `all_next_hops` and `HopTable`
//!   serve thousands of targets.
#![tactic(auto)]

mod choice;
mod distances;
mod edge;
mod edges;
mod graph;
mod hops;
mod indexed;
mod label;
mod labels;
pub mod laws;
mod next;
mod node;
mod nodes;
mod offers;
mod queue;
mod reach;
mod row;
mod scratch;
mod search;
mod spans;
mod table;

/// Parts of the search, for the crate that repairs distances.
pub mod parts {
    pub use crate::choice::{by_start, whole};
    pub use crate::edge::{Edge, Ends};
    pub use crate::graph::{indexed, nodes_in_order, rows_in_order, with_rows};
    pub use crate::indexed::IndexedRows;
    pub use crate::label::Label;
    pub use crate::labels::Labels;
    pub use crate::node::number;
    pub use crate::nodes::is_among;
    pub use crate::offers::{first_row, offer, offer_rows};
    pub use crate::queue::Queue;
    pub use crate::reach::is_step;
}

pub use choice::usable;
pub use distances::Distances;
pub use graph::Graph;
pub use hops::Hops;
pub use next::next_hops;
pub use row::Row;
pub use scratch::from_scratch;
pub use table::{HopTable, all_next_hops};
