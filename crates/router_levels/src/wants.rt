//! The fragments of own LSPs that a level wants.
ghost use Rattle.std.specs.Prelude.{◌≡◌, [], ◌∷◌, ◌++◌, length, OnOk, OnErr};

use isis_base::{LspId, OutOfMemory};
use router_sending::Draft;
use std::alloc::Global;
use std::marker::Model;

/// The fragments of own LSPs that a level wants, with a draft of each (ISO 10589 7.3.6). Contracts
/// see the drafts in order.
#[derive(Drop)]
pub struct Wants {
    pub(crate) ids: Vec<LspId>,
    pub(crate) drafts: Vec<Draft>,
}

impl Model for Wants {
    ghost use Rattle.std.specs.Prelude.{◌≡◌, List, map};
    ghost use Rattle.router_sending.specs.Drafts.{DraftView};

    ghost Value = { List DraftView };

    ghost view = { λ w. w.drafts.items };

    ghost invariant = { λ w. w.ids.items ≡ map (λ (d : DraftView). d.id) w.drafts.items };
}

impl Wants {
    /// None is wanted. It takes no memory.
    pub fn new(alloc: Global) -> Wants
        ensures { result ≡ [] }
    {
        Wants {
            ids: Vec::new(alloc),
            drafts: Vec::new(alloc),
        }
    }

    /// The number of fragments.
    pub fn len(&self) -> usize
        ensures { result ≡ length self.now }
    {
        self.drafts.len()
    }

    /// Adds a fragment behind the others. At `OutOfMemory` they are as they were.
    pub fn push(&mut self, draft: Draft) -> Result<(), OutOfMemory>
        ensures ok { OnOk result (self.new ≡ self.old ++ draft ∷ []) }
        ensures err { OnErr result (self.new ≡ self.old) }
    {
        self.ids.reserve(1)?;
        self.drafts.reserve(1)?;
        self.ids.push_reserved(draft.id());
        self.drafts.push_reserved(draft);
        Ok(())
    }
}
