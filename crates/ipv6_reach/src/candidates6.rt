//! What the prefixes of a database may be reached by (RFC 5308 5).

ghost use Rattle.std.specs.Prelude.{◌≡◌, ◌≤◌, ◌++◌, map, IfOk, OnOk, if◌then◌else◌};
ghost use Rattle.std.specs.List.{flat_map};
ghost use Rattle.isis_base.specs.declared.identifiers.LspId.{LspId};
ghost use Rattle.lsp_store.specs.declared.entry.Entry.{Entry};
ghost use Rattle.lsp_store.specs.Databases.{live_of};
ghost use Rattle.spf_tree.specs.Distances.{AreSmall};
ghost use Rattle.ipv6_reach.specs.declared.rank6.Rank6.TheVariants as rank;
ghost use Rattle.ipv6_reach.specs.Reach6.{own6, told6, leads_other, beside6, candidates6};

use crate::candidate6::Candidate6;
use crate::item6::Prefix6Item;
use crate::rank6::Rank6;
use crate::reach6::{own_node, reach6_into};
use isis_base::{LspId, OutOfMemory, SystemId};
use lsp_store::Store;
use spf_tree::Distances;
use spf_tree::parts::number;
use std::alloc::Global;

/// The prefixes of the root, and those of each other system that is reached, by the distances from the root.
#[tactic(auto, unfolding(crate::specs::Reach6::candidates6))]
pub fn candidates6(
    alloc: Global,
    store: &Store,
    root: SystemId,
    distances: &Distances,
) -> Result<Vec<Candidate6>, OutOfMemory>
    requires { AreSmall distances.now }
    ensures { IfOk result (λ list. list.items ≡ candidates6 store.now.entries root distances.now) }
{
    let mut list = Vec::new(alloc);
    let (mut items, mut listed) = (Vec::new(alloc), Vec::new(alloc));
    match reach6_into(&mut items, &mut listed, store, root) {
        Ok(()) => {}
        Err(error) => return Err(error),
    }
    match add_own(&mut list, root, items.as_slice()) {
        Ok(()) => {}
        Err(error) => return Err(error),
    }
    match add_others(&mut items, &mut listed, &mut list, store, root, distances) {
        Ok(()) => Ok(list),
        Err(error) => Err(error),
    }
}

/// Adds the root's own prefixes.
fn add_own(
    list: &mut Vec<Candidate6>,
    root: SystemId,
    items: &[Prefix6Item],
) -> Result<(), OutOfMemory>
    ensures { OnOk result (list.new.items ≡ list.old.items ++ map (own6 root) items.now) }
{
    for item in items {
        match list.push(own6(root, item)) {
            Ok(()) => {}
            Err(_) => return Err(OutOfMemory),
        }
    }
    Ok(())
}

fn own6(root: SystemId, item: &Prefix6Item) -> Candidate6
    ensures { result ≡ own6 root item.now }
{
    Candidate6 {
        prefix: item.prefix,
        rank: Rank6::Own,
        cost: u64::from(item.metric),
        origin: own_node(root),
    }
}

/// Adds the prefixes of the other systems. The first two lists are room that is used again.
fn add_others(
    items: &mut Vec<Prefix6Item>,
    listed: &mut Vec<Prefix6Item>,
    list: &mut Vec<Candidate6>,
    store: &Store,
    root: SystemId,
    distances: &Distances,
) -> Result<(), OutOfMemory>
    requires { AreSmall distances.now }
    ensures { OnOk result (list.new.items ≡ list.old.items
        ++ flat_map (λ (pair : LspId × Entry). beside6 store.now.entries root distances.now pair.0)
        (live_of store.now.entries)) }
{
    for (id, _) in store.live() {
        match add_beside(items, listed, list, store, root, distances, id) {
            Ok(()) => {}
            Err(error) => return Err(error),
        }
    }
    Ok(())
}

/// Adds the prefixes of the system that an LSP leads, if it leads one.
fn add_beside(
    items: &mut Vec<Prefix6Item>,
    listed: &mut Vec<Prefix6Item>,
    list: &mut Vec<Candidate6>,
    store: &Store,
    root: SystemId,
    distances: &Distances,
    id: LspId,
) -> Result<(), OutOfMemory>
    requires { AreSmall distances.now }
    ensures { OnOk result (list.new.items
        ≡ list.old.items ++ beside6 store.now.entries root distances.now id) }
{
    if !leads_other(root, id) {
        return Ok(());
    }
    let system = id.node.system;
    match distances.get(id.node) {
        Some(cost) => match reach6_into(items, listed, store, system) {
            Ok(()) => add_told(list, system, cost, items.as_slice()),
            Err(error) => Err(error),
        },
        None => Ok(()),
    }
}

/// Whether an LSP is number 0 of a system other than the root.
fn leads_other(root: SystemId, id: LspId) -> bool
    ensures { result ≡ leads_other root id }
{
    id.number == 0 && id.node.pseudonode == 0 && number(id.node) != number(own_node(root))
}

/// Adds prefixes that a system at this cost tells.
fn add_told(
    list: &mut Vec<Candidate6>,
    system: SystemId,
    cost: u64,
    items: &[Prefix6Item],
) -> Result<(), OutOfMemory>
    requires { cost ≤ 18446744065119617025 }
    ensures { OnOk result (list.new.items ≡ list.old.items ++ map (told6 system cost) items.now) }
{
    for item in items {
        match list.push(told6(system, cost, item)) {
            Ok(()) => {}
            Err(_) => return Err(OutOfMemory),
        }
    }
    Ok(())
}

fn told6(system: SystemId, cost: u64, item: &Prefix6Item) -> Candidate6
    requires { cost ≤ 18446744065119617025 }
    ensures { result ≡ told6 system cost item.now }
{
    Candidate6 {
        prefix: item.prefix,
        rank: rank_of(item.down),
        cost: cost + u64::from(item.metric),
        origin: own_node(system),
    }
}

/// The rank of a prefix that another system tells.
fn rank_of(down: bool) -> Rank6
    ensures { result ≡ (if down then rank.Down else rank.Up) }
{
    if down { Rank6::Down } else { Rank6::Up }
}
