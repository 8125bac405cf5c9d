//! The rows of a level: who lists whom, at which metric.

use isis_base::NodeId;

/// A neighbour that a node lists (ISO 10589 7.2.4, RFC 5305 3), at a metric in the units of the level's metrics.
#[derive(Clone, Copy, Debug, PartialEq, Eq)]
pub struct Row {
    pub from: NodeId,
    pub to: NodeId,
    pub metric: u32,
}
