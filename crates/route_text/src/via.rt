//! The next hops of a route's line.
ghost use Rattle.std.specs.Prelude.{◌≡◌, ◌++◌, OnOk};
ghost use Rattle.std.specs.List.{flat_map};
ghost use Rattle.spf_tree.specs.Nodes.{system_node};
ghost use Rattle.route_text.specs.ViaText as lines;

use isis_base::laws::lsp_id_law;
use isis_base::{LspId, NodeId, Octets, OutOfMemory, SystemId, add_system_id};
use spf_tree::Hops;

/// ` via SYSTEM SYSTEM`, where there is a next hop.
pub fn add_via(page: &mut Octets, hops: &Hops) -> Result<(), OutOfMemory>
    ensures { OnOk result (page.new ≡ page.old ++ lines.via_text hops.now) }
{
    if hops.is_empty() {
        return Ok(());
    }
    page.extend(b" via")?;
    add_hops(page, hops)
}

/// A blank and a system ID for each next hop.
fn add_hops(page: &mut Octets, hops: &Hops) -> Result<(), OutOfMemory>
    ensures { OnOk result (page.new ≡ page.old ++ flat_map lines.hop_text hops.now) }
{
    for place in 0..hops.len() {
        let Some(system) = hops.get(place) else {
            return Ok(());
        };
        match add_hop(page, system) {
            Ok(()) => {}
            Err(error) => return Err(error),
        }
    }
    Ok(())
}

/// A blank and a system ID.
#[tactic(auto, unfolding(crate::specs::ViaText::hop_text))]
fn add_hop(page: &mut Octets, system: SystemId) -> Result<(), OutOfMemory>
    ensures { OnOk result (page.new ≡ page.old ++ lines.hop_text (system_node system)) }
{
    lsp_id_law(LspId {
        node: NodeId {
            system,
            pseudonode: 0,
        },
        number: 0,
    });
    add_system_id(page, b" ", system)
}
