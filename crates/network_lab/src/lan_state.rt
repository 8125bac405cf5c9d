//! How a member of a LAN stands.
use isis_base::SystemId;

/// Whom a member of a LAN sees as designated at a level, and whether it is swept by it.
#[derive(Clone, Copy, Debug, PartialEq, Eq)]
pub struct LanState {
    pub sees: Option<SystemId>,
    pub swept: bool,
}
