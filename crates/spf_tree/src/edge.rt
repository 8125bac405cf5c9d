//! Rows as a search walks them, by places of nodes.

/// A row by the place of its end among the nodes, and its metric.
#[derive(Clone, Copy, Debug, PartialEq, Eq)]
pub struct Edge {
    pub place: usize,
    pub metric: u32,
}

/// Where the rows of a node stand: from the first to the one past the last.
#[derive(Clone, Copy, Debug, PartialEq, Eq)]
pub struct Span {
    pub first: usize,
    pub past: usize,
}

/// How many first rows are the first of other rows, and how many last ones their last.
#[derive(Clone, Copy, Debug)]
pub struct Ends {
    pub first: usize,
    pub last: usize,
}
