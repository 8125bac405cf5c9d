//! What is seen of a line `run` that was played with losses.

use crate::loss::Loss;

/// What is seen of a line `run` that was played with losses.
#[derive(Drop)]
pub struct Look {
    /// The last second at whose end the network wasn't as it should be; 0 where it always was. It is at most the line's seconds.
    pub apart: u64,
    /// How many deliveries came up.
    pub came: usize,
    /// The deliveries that were lost, in order.
    pub lost: Vec<Loss>,
}
