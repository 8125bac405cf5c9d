//! What own LSPs look at of a configuration.
use isis_base::{AreaAddress, LevelSet, Prefix, SystemId};

/// What own LSPs look at of a configuration: the system, its area addresses, the levels that are
/// run, whether level 2 is leaked into level 1 (RFC 5302 3), whether overload is set (ISO 10589
/// 7.3.19), one's own prefixes with their metrics, in rising order of address and length, and
/// whether the level's LSPs are signed (RFC 5304 2).
#[derive(Clone, Copy)]
pub struct Wants<'a> {
    pub system: SystemId,
    pub areas: &'a [AreaAddress],
    pub levels: LevelSet,
    pub leak: bool,
    pub overload: bool,
    pub prefixes: &'a [(Prefix, u32)],
    pub signed: bool,
}
