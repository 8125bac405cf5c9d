//! What own LSPs say, before they are split.
ghost use Rattle.std.specs.Prelude.{◌≡◌, ℕ, ◌+◌, ◌*◌, ◌<◌, ◌≤◌, ◌^◌, ◌++◌, [], ◌∷◌, List, map, length, All, IfOk};
ghost use Rattle.std.specs.List.{AllByRecursion};
ghost use Rattle.isis_tlv.specs.Spelling.{area_value};
ghost use Rattle.model_router.specs.Both.{at};
ghost use Rattle.model_router.specs.LspNeighbours.{all_nodes, lan_nodes, node_items};
ghost use Rattle.model_router.specs.LspPrefixes.{own_reach, reach_items};
ghost use Rattle.model_router.specs.Sorted.{RisesFrom};
ghost use Rattle.model_router.specs.Wanted as model;
ghost use Rattle.model_router.specs.Numbers.{system_number};
ghost use Rattle.lsp_fragments.specs.Entries.{content_entries, content_first};
ghost use Rattle.router_wanted.specs.Lent.{config_of, router_of};
ghost use Rattle.router_wanted.specs.Parts.{is_down, is_leaked_into, leaked_or};
ghost use Rattle.router_wanted.specs.Views.{IsSplittable, prefix_pair};

use crate::flags::is_type;
use crate::reaches::reaches;
use crate::system_nodes::{lan_nodes, system_nodes};
use crate::wants::Wants;
use isis_base::{AreaAddress, Level, OutOfMemory, Prefix};
use lsp_fragments::{Content, content_laws};
use router_circuits::Circuit;
use std::alloc::Global;

/// What the system's LSP says.
pub(crate) fn system_content(
    alloc: Global,
    base: &Wants<'_>,
    circuits: &[Circuit],
    level: Level,
    leaks: &[(Prefix, u32)],
) -> Result<Content, OutOfMemory>
    requires areas { length base.now.areas.now ≤ 3 }
    requires circuits { length circuits.now ≤ 64 }
    requires metrics { AllByRecursion (λ c. c.metric ≤ 16777215) circuits.now }
    requires prefixes { RisesFrom 0 (map prefix_pair base.now.prefixes.now) }
    ensures first { IfOk result (λ content.
        content_first content ≡ model.first_tlvs (router_of base.now circuits.now)) }
    ensures entries { IfOk result (λ content. content_entries content
        ≡ node_items (all_nodes (config_of base.now) level 0 circuits.now [])
        ++ reach_items (leaked_or (is_leaked_into base.now level) (is_down level)
        (own_reach (map prefix_pair base.now.prefixes.now)) (map prefix_pair leaks.now))) }
    ensures splittable { IfOk result IsSplittable }
{
    let areas = Vec::from_slice(alloc, base.areas)?;
    let addresses = addresses_of(alloc, circuits)?;
    let neighbours = system_nodes(alloc, base, circuits, level)?;
    let prefixes = reaches(alloc, base, level, leaks)?;
    content_laws();
    Ok(Content {
        areas,
        addresses,
        neighbours,
        prefixes,
        flags: is_type(base),
        pseudonode: false,
    })
}

/// What the LSP of a LAN's pseudonode says.
pub(crate) fn pseudonode_content(
    alloc: Global,
    base: &Wants<'_>,
    circuit: &Circuit,
    level: Level,
) -> Result<Content, OutOfMemory>
    ensures first { IfOk result (λ content. content_first content ≡ []) }
    ensures entries { IfOk result (λ content. content_entries content
        ≡ node_items (lan_nodes (at circuit.now.levels level).heard
        ((256 * system_number base.now.system, 0) ∷ []))) }
    ensures splittable { IfOk result IsSplittable }
{
    let neighbours = lan_nodes(alloc, base.system, circuit.up(level))?;
    content_laws();
    Ok(Content {
        areas: Vec::new(alloc),
        addresses: Vec::new(alloc),
        neighbours,
        prefixes: Vec::new(alloc),
        flags: is_type(base),
        pseudonode: true,
    })
}

/// The circuits' addresses, in order.
fn addresses_of(alloc: Global, circuits: &[Circuit]) -> Result<Vec<u32>, OutOfMemory>
    ensures items { IfOk result (λ list. list.items ≡ model.addresses_of circuits.now) }
    ensures few { IfOk result (λ list. length list.items ≤ length circuits.now) }
{
    let mut list = Vec::with_capacity(alloc, circuits.len())?;
    for circuit in circuits {
        if let Some(address) = circuit.address() {
            list.push(address)?;
        }
    }
    Ok(list)
}

/// An area address has at most 14 octets with its length, so that three of them fit a TLV.
pub(crate) fn area_sizes(areas: &[AreaAddress])
    ensures { length (area_value areas.now) ≤ 14 * length areas.now }
{
    let mut left = areas;
    while let [area, more @ ..] = left {
        area.octets();
        left = more;
    }
}
