//! Identifiers are those of their numbers: functions that do nothing, whose contracts are the laws.
ghost use Rattle.std.specs.Prelude.{◌≡◌, ℕ, map};
ghost use Rattle.std.specs.Option.{option_map};
ghost use Rattle.flag_sync.specs.Heard.{entry_of, entries_of};
ghost use Rattle.model_router.specs.Numbers.{system_id, node_id, snpa_id, node_number, snpa_number};
ghost use Rattle.model_datagram.specs.Tlvs.{lsp_entry};
ghost use Rattle.router_sending.specs.Sends.{names_of, snpas_of};

use crate::laws::id_law;
use adjacency::Neighbour;
use isis_base::laws::are_six;
use isis_base::{LspEntry, NodeId, Snpa, SystemId};
use model_router::laws::identifiers::system_law;

/// A node ID.
pub(crate) fn node_law(node: NodeId)
    ensures { node_id (node_number node) ≡ node }
{
    system_law(node.system);
    let _pseudonode = node.pseudonode;
}

/// A neighbour's system with its extended circuit ID, where it has one.
pub(crate) fn names_law(neighbour: Option<(SystemId, u32)>)
    ensures { option_map (λ (name : ℕ × ℕ). (system_id name.0, name.1)) (names_of neighbour)
        ≡ neighbour }
{
    if let Some((system, _)) = neighbour {
        system_law(system);
    }
}

/// A neighbour's SNPA.
fn snpa_law(neighbour: &Neighbour)
    ensures { snpa_id (snpa_number neighbour.now.snpa) ≡ neighbour.now.snpa }
{
    let Snpa(octets) = neighbour.snpa;
    are_six(octets);
}

/// The SNPAs of neighbours.
pub(crate) fn snpas_law(heard: &[Neighbour])
    ensures { map snpa_id (snpas_of heard.now) ≡ map (λ (n : Neighbour). n.snpa) heard.now }
{
    let mut left = heard;
    while let [neighbour, more @ ..] = left {
        snpa_law(neighbour);
        left = more;
    }
}

/// An LSP entry.
fn entry_law(entry: &LspEntry)
    ensures { lsp_entry (entry_of entry.now) ≡ entry.now }
{
    id_law(entry.id);
}

/// LSP entries.
pub(crate) fn entries_law(entries: &[LspEntry])
    ensures { map lsp_entry (entries_of entries.now) ≡ entries.now }
{
    let mut left = entries;
    while let [entry, more @ ..] = left {
        entry_law(entry);
        left = more;
    }
}
