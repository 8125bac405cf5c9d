//! Fragments with their LSP IDs.
ghost use Rattle.std.specs.Prelude.{◌≡◌, ◌≤◌, ◌<◌, ◌+◌, ◌*◌, ◌++◌, length, map, OnOk, ◌==◌, if◌then◌else◌};
ghost use Rattle.isis_base.specs.Identifiers.{lsp_number};
ghost use Rattle.model_router.specs.Wanted.{fragments_of};
ghost use Rattle.model_router.specs.Numbers.{node_number};
ghost use Rattle.router_wanted.specs.Parts.{counted};
ghost use Rattle.router_wanted.specs.Views.{wanted_of};

use crate::wanted::Wanted;
use isis_base::{LspId, NodeId, Octets, OutOfMemory};

/// Adds the fragments of a node's LSP, whose number 0 has flags of its own.
pub(crate) fn add(
    list: &mut Vec<Wanted>,
    node: NodeId,
    first: u8,
    flags: u8,
    parts: Vec<Octets>,
) -> Result<(), OutOfMemory>
    requires { length parts.items ≤ 256 }
    ensures { OnOk result (map wanted_of list.new.items ≡ map wanted_of list.old.items
        ++ fragments_of first flags (256 * node_number node) parts.items) }
{
    let mut parts = parts;
    parts.reverse();
    let mut number = 0usize;
    while let Some(tlvs) = parts.pop() {
        let fragment = Wanted {
            id: id_of(node, number),
            flags: flags_of(number, first, flags),
            tlvs,
        };
        match list.push(fragment) {
            Ok(()) => {}
            Err(_) => return Err(OutOfMemory),
        }
        number += 1;
    }
    Ok(())
}

/// The LSP ID of a node's fragment.
fn id_of(node: NodeId, number: usize) -> LspId
    requires { number < 256 }
    ensures { lsp_number result ≡ 256 * node_number node + number }
{
    LspId {
        node,
        number: number as u8,
    }
}

/// The flags of a fragment.
fn flags_of(number: usize, first: u8, flags: u8) -> u8
    ensures { result ≡ (if number == 0 then first else flags) }
{
    if number == 0 { first } else { flags }
}
