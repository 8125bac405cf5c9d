//! A label of the search.

/// A node by its number, and the cost of a walk to it, where one is known.
#[derive(Clone, Copy, Debug, PartialEq, Eq)]
pub struct Label {
    pub node: u64,
    pub cost: Option<u64>,
}
