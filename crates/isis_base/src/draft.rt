//! A header or the value of a TLV while it is written: at most 255 octets, kept without memory of the heap.
ghost use Rattle.std.specs.Prelude.{◌≡◌, ◌+◌, ◌≤◌, [], ◌∷◌, ◌++◌, length};
ghost use Rattle.isis_base.specs.Identifiers.{node_octets, lsp_octets};

use crate::identifiers::{LspId, NodeId};
use std::marker::Model;

/// The greatest number of octets of a draft, that of a TLV's value (ISO 10589 9.5).
const MOST: usize = 255;

/// Octets while they are written, at most 255. Contracts see the list of them.
#[derive(Drop)]
pub struct Draft {
    octets: [u8; MOST],
    len: usize,
}

impl Model for Draft {
    ghost use Rattle.std.specs.Prelude.{ℕ, List, ◌≤◌, take};

    ghost Value = { List ℕ };

    ghost view = { λ draft. take draft.len draft.octets };

    ghost invariant = { λ draft. draft.len ≤ 255 };
}

impl Draft {
    /// A draft of no octets.
    pub fn new() -> Draft
        ensures { result ≡ [] }
    {
        Draft {
            octets: [0; MOST],
            len: 0,
        }
    }

    /// Adds octets at the end.
    pub fn add(&mut self, piece: &[u8])
        requires { length self.old + length piece.now ≤ 255 }
        ensures { self.new ≡ self.old ++ piece.now }
    {
        let end = self.len + piece.len();
        self.octets[self.len..end].copy_from_slice(piece);
        self.len = end;
    }

    /// Adds the seven octets of a node ID (ISO 10589 9.8).
    pub fn add_node(&mut self, node: NodeId)
        requires { length self.old + 7 ≤ 255 }
        ensures octets { self.new ≡ self.old ++ node_octets node }
        ensures count { length self.new ≡ length self.old + 7 }
    {
        self.add(&node.system.0);
        self.add(&[node.pseudonode]);
    }

    /// Adds the eight octets of an LSP ID (ISO 10589 9.8).
    pub fn add_lsp_id(&mut self, id: LspId)
        requires { length self.old + 8 ≤ 255 }
        ensures octets { self.new ≡ self.old ++ lsp_octets id }
        ensures count { length self.new ≡ length self.old + 8 }
    {
        self.add_node(id.node);
        self.add(&[id.number]);
    }

    /// The octets, lent.
    pub fn as_slice(&self) -> &[u8]
        ensures value { result.now ≡ self.now }
        ensures fits { length self.now ≤ 255 }
    {
        &self.octets[..self.len]
    }
}
