//! All own LSPs that a level wants.
ghost use Rattle.std.specs.Prelude.{◌≡◌, ℕ, ◌<◌, ◌≤◌, ◌+◌, ◌*◌, ◌/◌, ◌++◌, List, Option, is_some, length, map, IfOk, OnOk};
ghost use Rattle.std.specs.List.{AllByRecursion};
ghost use Rattle.isis_base.specs.Identifiers.{lsp_number};
ghost use Rattle.model_router.specs.Givens.{Given};
ghost use Rattle.model_router.specs.Good.{IsIssuable};
ghost use Rattle.model_router.specs.Routers as model_circuits;
ghost use Rattle.model_router.specs.Routers.{Router};
ghost use Rattle.model_router.specs.Sorted.{RisesFrom};
ghost use Rattle.model_router.specs.Wanted as model;
ghost use Rattle.model_router.specs.Numbers.{node_number, system_number};
ghost use Rattle.router_wanted.specs.Lent.{IsLent, given_of, router_of};
ghost use Rattle.router_wanted.specs.Views.{contents_of, prefix_pair, wanted_of};

use crate::contents::{area_sizes, pseudonode_content, system_content};
use crate::flags::{first_flags, is_type};
use crate::fragments::{Parts, fragments};
use crate::numbering;
use crate::wanted::Wanted;
use crate::wants::Wants;
use isis_base::{Level, NodeId, OutOfMemory, Prefix, SystemId};
use model_router::has_level;
use router_circuits::Circuit;
use std::alloc::Global;

/// The own LSPs that a level wants (ISO 10589 7.3.7 to 7.3.10), in rising order of LSP ID: the
/// system's, and a pseudonode's for each LAN whose designated system the router is. `leaks` are the
/// prefixes that are leaked into the level, with their metrics (RFC 5302 3); `attached` is whether
/// the router reaches another area (ISO 10589 7.2.9.2).
pub fn wanted_lsps(
    alloc: Global,
    base: &Wants<'_>,
    circuits: &[Circuit],
    level: Level,
    leaks: &[(Prefix, u32)],
    attached: bool,
) -> Result<Vec<Wanted>, OutOfMemory>
    requires areas { length base.now.areas.now ≤ 3 }
    requires circuits { length circuits.now ≤ 64 }
    requires metrics { AllByRecursion (λ c. c.metric ≤ 16777215) circuits.now }
    requires prefixes { RisesFrom 0 (map prefix_pair base.now.prefixes.now) }
    ensures wanted { (given : Given) (before r : Router)
        → IsLent given before r level base.now circuits.now leaks.now attached
        → IfOk result (λ list. map wanted_of list.items ≡ model.wanted given before r level) }
    ensures issuable { (key : Option (List ℕ)) → is_some key ≡ base.now.signed
        → IfOk result (λ list. AllByRecursion (λ w. IsIssuable key (contents_of w)) list.items) }
    ensures own { IfOk result (λ list. AllByRecursion
        (λ w. lsp_number w.id / 65536 ≡ system_number base.now.system) list.items) }
    ensures rises { IfOk result (λ list. RisesFrom 0 (map wanted_of list.items)) }
    ensures count { IfOk result (λ list.
        length list.items ≤ 256 + 256 * length circuits.now) }
{
    area_sizes(base.areas);
    build(alloc, base, circuits, level, leaks, attached)
}

/// All own LSPs of a level.
fn build(
    alloc: Global,
    base: &Wants<'_>,
    circuits: &[Circuit],
    level: Level,
    leaks: &[(Prefix, u32)],
    attached: bool,
) -> Result<Vec<Wanted>, OutOfMemory>
    requires areas { length base.now.areas.now ≤ 3 }
    requires circuits { length circuits.now ≤ 64 }
    requires metrics { AllByRecursion (λ c. c.metric ≤ 16777215) circuits.now }
    requires prefixes { RisesFrom 0 (map prefix_pair base.now.prefixes.now) }
    ensures { IfOk result (λ list. map wanted_of list.items ≡ model.wanted
        (given_of leaks.now attached) (router_of base.now circuits.now)
        (router_of base.now circuits.now) level) }
{
    let mut list = Vec::new(alloc);
    if !has_level(base.levels, level) {
        return Ok(list);
    }
    match add_system(&mut list, base, circuits, level, leaks, attached) {
        Ok(()) => {}
        Err(error) => return Err(error),
    }
    match add_pseudonodes(&mut list, base, circuits, level) {
        Ok(()) => Ok(list),
        Err(error) => Err(error),
    }
}

/// Adds the system's LSP.
fn add_system(
    list: &mut Vec<Wanted>,
    base: &Wants<'_>,
    circuits: &[Circuit],
    level: Level,
    leaks: &[(Prefix, u32)],
    attached: bool,
) -> Result<(), OutOfMemory>
    requires areas { length base.now.areas.now ≤ 3 }
    requires circuits { length circuits.now ≤ 64 }
    requires metrics { AllByRecursion (λ c. c.metric ≤ 16777215) circuits.now }
    requires prefixes { RisesFrom 0 (map prefix_pair base.now.prefixes.now) }
    ensures { OnOk result (map wanted_of list.new.items ≡ map wanted_of list.old.items
        ++ model.system_lsp (given_of leaks.now attached) (router_of base.now circuits.now)
        (router_of base.now circuits.now) level) }
{
    let alloc = *list.allocator();
    let content = match system_content(alloc, base, circuits, level, leaks) {
        Ok(content) => content,
        Err(error) => return Err(error),
    };
    let parts = match fragments(alloc, content, base.signed) {
        Ok(parts) => parts,
        Err(error) => return Err(error),
    };
    let Parts { tlvs, whole } = parts;
    let first = first_flags(base, level, attached, whole);
    let node = node_of(base.system, 0);
    numbering::add(list, node, first, is_type(base), tlvs)
}

/// Adds the pseudonodes' LSPs.
fn add_pseudonodes(
    list: &mut Vec<Wanted>,
    base: &Wants<'_>,
    circuits: &[Circuit],
    level: Level,
) -> Result<(), OutOfMemory>
    requires { length circuits.now ≤ 64 }
    ensures { (all : List model_circuits.Circuit)
        → OnOk result (map wanted_of list.new.items ≡ map wanted_of list.old.items
        ++ model.pseudonode_lsps (router_of base.now all) level 0 circuits.now) }
{
    for place in 0..circuits.len() {
        match add_pseudonode(list, base, &circuits[place], place, level) {
            Ok(()) => {}
            Err(error) => return Err(error),
        }
    }
    Ok(())
}

/// Adds the LSP of a LAN's pseudonode, where the router is designated on the circuit of this place.
fn add_pseudonode(
    list: &mut Vec<Wanted>,
    base: &Wants<'_>,
    circuit: &Circuit,
    place: usize,
    level: Level,
) -> Result<(), OutOfMemory>
    requires { place < 64 }
    ensures { (all : List model_circuits.Circuit)
        → OnOk result (map wanted_of list.new.items ≡ map wanted_of list.old.items
        ++ model.pseudonode_lsp (router_of base.now all) place circuit.now level) }
{
    let number = place as u8 + 1;
    if !circuit.is_designated(base.system, number, level) {
        return Ok(());
    }
    let alloc = *list.allocator();
    let content = match pseudonode_content(alloc, base, circuit, level) {
        Ok(content) => content,
        Err(error) => return Err(error),
    };
    let parts = match fragments(alloc, content, base.signed) {
        Ok(parts) => parts,
        Err(error) => return Err(error),
    };
    let Parts { tlvs, whole: _ } = parts;
    let flags = is_type(base);
    numbering::add(list, node_of(base.system, number), flags, flags, tlvs)
}

/// The system's node, or that of one of its pseudonodes.
fn node_of(system: SystemId, pseudonode: u8) -> NodeId
    ensures { node_number result ≡ 256 * system_number system + pseudonode }
{
    NodeId { system, pseudonode }
}
