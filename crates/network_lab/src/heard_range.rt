//! A range of a CSNP that a router hears on a LAN.
use isis_base::{Level, LspId};
use lab_facts::SweepKey;

/// The range of a CSNP of a level.
#[derive(Clone, Copy, Debug)]
pub struct CsnpRange {
    pub level: Level,
    pub first: LspId,
    pub last: LspId,
}

/// A range of a CSNP in which nothing sets a flag, and the moment at which a router hears it.
#[derive(Clone, Copy, Debug)]
pub struct HeardRange {
    pub key: SweepKey,
    pub first: LspId,
    pub last: LspId,
}
