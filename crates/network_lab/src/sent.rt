//! Datagrams that were sent.
use isis_base::Octets;

/// How many changes of keys each level's database of a router has had since the start.
#[derive(Clone, Copy, Debug, PartialEq, Eq)]
pub struct Changes {
    pub one: u64,
    pub two: u64,
}

/// A datagram that was sent: by which router, in which of its boots, at which counts of changed keys, on which
/// link, and its octets.
#[derive(Drop, Debug)]
pub struct SentDatagram {
    pub sender: usize,
    pub boot: u32,
    pub changes: Changes,
    pub link: usize,
    pub octets: Octets,
}
