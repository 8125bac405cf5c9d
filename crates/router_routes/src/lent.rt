//! What of a router routes look at.
use isis_base::{AreaAddress, LevelSet, Prefix, SystemId};
use lsp_store::Store;

/// What of a router routes look at: its system ID, its area addresses, the levels that it runs, its
/// own prefixes with their metrics, and the databases of level 1 and level 2.
#[derive(Clone, Copy)]
pub struct Lent<'a> {
    pub system: SystemId,
    pub areas: &'a [AreaAddress],
    pub levels: LevelSet,
    pub prefixes: &'a [(Prefix, u32)],
    pub one: &'a Store,
    pub two: &'a Store,
}
