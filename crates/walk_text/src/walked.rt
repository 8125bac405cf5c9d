//! A walk of a packet.

/// A walk to a prefix: the routers after the first one, by their numbers, and the cost of the first one's route, in units of
/// metrics.
#[derive(Drop, Debug)]
pub struct Walked {
    pub routers: Vec<usize>,
    pub cost: u64,
}
