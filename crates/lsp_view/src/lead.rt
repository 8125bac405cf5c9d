//! A node's number 0 (ISO 10589 7.2.5).
ghost use Rattle.std.specs.Prelude.{◌≡◌};
ghost use Rattle.std.specs.Option.{option_map};
ghost use Rattle.lsp_view.specs.Lsps.{entries_in};
ghost use Rattle.lsp_view.specs.Views.{lead_of};

use crate::lsps::Lsps;
use isis_base::{LspId, NodeId};
use lsp_store::{Entry, Store, is_live};

/// The entry of the node's number 0, where it is live.
pub fn lead(store: &Store, node: NodeId) -> Option<&Entry>
    ensures { option_map (λ entry. entry.now) result ≡ lead_of store.now.entries node }
{
    Lsps::of(store).lead(node)
}

impl<'a> Lsps<'a> {
    /// The entry of the node's number 0, where it is live.
    pub fn lead(&self, node: NodeId) -> Option<&'a Entry>
        ensures { option_map (λ entry. entry.now) result ≡ lead_of (entries_in self.now) node }
    {
        match self.get(LspId { node, number: 0 }) {
            Some(entry) => { if is_live(entry) { Some(entry) } else { None } }
            None => None,
        }
    }
}
