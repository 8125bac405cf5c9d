//! At which moment a range of a CSNP was taken.
use isis_base::Level;

/// A moment at which a router takes a range of a CSNP of another on a link or LAN and level: the router's boot and its count of
/// changed keys, and those of the sender when it sent the CSNP (own).
#[derive(Clone, Copy, Debug, PartialEq, Eq, PartialOrd, Ord)]
pub struct SweepKey {
    pub link: usize,
    pub level: Level,
    pub member: usize,
    pub sender: usize,
    pub boot: u32,
    pub changes: u64,
    pub sent_boot: u32,
    pub sent_changes: u64,
}
