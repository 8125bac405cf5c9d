//! Live LSPs of systems that are none of the routers.
ghost use Rattle.std.specs.Prelude.{◌≡◌, ◌++◌, ◌∷◌, [], ℕ, false, List, Some, map, IfOk, MatchOption};
ghost use Rattle.isis_base.specs.declared.identifiers.SystemId.{SystemId as Id};
ghost use Rattle.model_router.specs.Places.{nth};
ghost use Rattle.model_router.specs.Routers as model;
ghost use Rattle.lsp_store.specs.Databases.{live_of};
ghost use Rattle.forward_views.specs.Looks.{Look, AreKnown};
ghost use Rattle.walk_text.specs.Foreign.{node_of, systems_in, IsLeastForeign};
ghost use Rattle.walk_text.specs.Tests.{AreLooks, IsLeastStranger};

use crate::level_one::level_one;
use crate::nodes::{system_number, system_of};
use isis_base::{OutOfMemory, SystemId};
use lsp_store::Store;
use network_lab::Network;
use std::alloc::Global;

/// The least system that a live LSP of level 1 is of and that is none of the routers; `None` where there is none.
pub(crate) fn least_stranger(
    alloc: Global,
    network: &Network,
) -> Result<Option<SystemId>, OutOfMemory>
    requires { (i : ℕ) (r : model.Router) → nth network.now.seen.routers i ≡ Some r
        → r.config.runs.two ≡ false }
    ensures { IfOk result (λ found. (looks : List Look)
        → AreLooks network.now.seen.routers looks
        → MatchOption found (AreKnown looks) (IsLeastStranger looks)) }
{
    let known = systems_of(alloc, network)?;
    let mut least = None;
    for place in 0..network.routers() {
        least = least_foreign(level_one(network.router(place)), known.as_slice(), least);
    }
    Ok(least)
}

/// The nodes of the routers as numbers.
fn systems_of(alloc: Global, network: &Network) -> Result<Vec<u64>, OutOfMemory>
    ensures { IfOk result (λ known. known.items ≡ map node_of network.now.seen.routers) }
{
    let mut known = Vec::new(alloc);
    for place in 0..network.routers() {
        known.push(system_number(system_of(network.router(place))))?;
    }
    Ok(known)
}

/// The least system of the live LSPs of a database that isn't known, or the one so far.
fn least_foreign(store: &Store, known: &[u64], least: Option<SystemId>) -> Option<SystemId>
    ensures { (before : List Id) → IsLeastForeign known.now before least
        → IsLeastForeign known.now (before ++ systems_in (live_of store.now.entries)) result }
{
    let mut least = least;
    for (id, _) in store.live() {
        least = lesser(known, least, id.node.system);
    }
    least
}

/// A system that isn't known and is less than the least so far, else that.
fn lesser(known: &[u64], least: Option<SystemId>, system: SystemId) -> Option<SystemId>
    ensures { (before : List Id) → IsLeastForeign known.now before least
        → IsLeastForeign known.now (before ++ system ∷ []) result }
{
    let node = system_number(system);
    if known.contains(&node) {
        return least;
    }
    match least {
        Some(other) if system_number(other) <= node => least,
        _ => Some(system),
    }
}
