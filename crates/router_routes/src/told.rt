//! What will be told: nodes with what their LSPs will be, and own prefixes (own).
use isis_base::{NodeId, Prefix};
use lsp_view::Lsps;

/// Nodes in order, each once, with what their LSPs will be, and no others.
#[derive(Clone, Copy)]
pub struct Moved<'a> {
    pub nodes: &'a [NodeId],
    pub aside: Lsps<'a>,
}

/// What will be others of what routes look at: what these nodes tell in each level, and one's own prefixes; `None` where all of
/// it stays.
#[derive(Clone, Copy)]
pub struct Told<'a> {
    pub one: Option<Moved<'a>>,
    pub two: Option<Moved<'a>>,
    pub prefixes: Option<&'a [(Prefix, u32)]>,
}
