//! What captured LSPs lack of a system that is asked for.
ghost use Rattle.std.specs.Prelude.{◌≡◌, Some};
ghost use Rattle.capture_text.specs.Absences.{absence_text, absence_of};

use ipv6_reach::Capture;
use ipv6_reach::parts::store;
use isis_base::{NodeId, SystemId};
use lsp_view::parts::lead;
use std::fmt;

/// What captured LSPs lack of a system that is asked for (own). A text of it has nothing but its head then, or, where others
/// list the system, little more.
#[derive(Clone, Copy, Debug, PartialEq, Eq)]
pub enum Absence {
    /// No LSP of the level was kept.
    Level,
    /// LSPs of the level were kept, but no live one of number 0 of the system, without which its others say nothing (ISO
    /// 10589 7.2.5).
    System,
}

impl fmt::Display for Absence {
    ghost output = { λ absence. Some (absence_text absence) };

    fn fmt<W: fmt::Write>(&self, f: &mut fmt::Formatter<W>) -> fmt::Result {
        match self {
            Absence::Level => write!(f, "no LSPs of this level"),
            Absence::System => write!(f, "no such system"),
        }
    }
}

/// What the LSPs of a capture lack of a system.
pub(crate) fn absence_of(capture: &Capture, system: SystemId) -> Option<Absence>
    ensures { result ≡ absence_of system capture.now.entries }
{
    let store = store(capture);
    if store.len() == 0 {
        return Some(Absence::Level);
    }
    match lead(
        store,
        NodeId {
            system,
            pseudonode: 0,
        },
    ) {
        Some(_) => None,
        None => Some(Absence::System),
    }
}
