//! The IPv4 routes of a system in captured LSPs.
ghost use Rattle.std.specs.Prelude.{◌≡◌, ◌++◌, map, IfOk, OnOk};
ghost use Rattle.lsp_view.specs.Views.{reach_in};
ghost use Rattle.router_routes.specs.Outlooks.{outlook_in};
ghost use Rattle.capture_text.specs.CapturedRoutes.{AreRoutesAt, only, outlook_of, own_of};

use isis_base::{Level, LevelSet, OutOfMemory, Prefix, SystemId};
use isis_tlv::PrefixItem;
use lsp_store::Store;
use lsp_view::reach;
use route_table::Routes;
use router_routes::Lent;
use std::alloc::Global;

/// The routes that a router of a system ID has which runs a level alone and holds these LSPs; its own prefixes are those that its
/// LSPs list (RFC 5302 3.2). A system without a live LSP of number 0 has the routes of one that says nothing.
pub(crate) fn best_routes(
    alloc: Global,
    level: Level,
    system: SystemId,
    store: &Store,
) -> Result<Routes, OutOfMemory>
    ensures { IfOk result (AreRoutesAt level system store.now.entries) }
{
    let prefixes = match own_prefixes(alloc, store, system) {
        Ok(prefixes) => prefixes,
        Err(error) => return Err(error),
    };
    let lent = lent_of(level, system, prefixes.as_slice(), store);
    match lent.routes(alloc) {
        Ok(routes) => Ok(routes),
        Err(error) => Err(error),
    }
}

/// What routes look at, of a router of one level.
#[tactic(auto, unfolding(crate::specs::CapturedRoutes::outlook_of, router_routes::specs::Outlooks::outlook_in))]
fn lent_of<'a>(
    level: Level,
    system: SystemId,
    prefixes: &'a [(Prefix, u32)],
    store: &'a Store,
) -> Lent<'a>
    requires { prefixes.now ≡ map own_of (reach_in store.now.entries system) }
    ensures { outlook_in result ≡ outlook_of level system store.now.entries }
{
    Lent {
        system,
        areas: &[],
        levels: only(level),
        prefixes,
        one: store,
        two: store,
    }
}

/// One level alone.
fn only(level: Level) -> LevelSet
    ensures { result ≡ only level }
{
    match level {
        Level::One => LevelSet::One,
        Level::Two => LevelSet::Two,
    }
}

/// The prefixes that the LSPs of a system list, with their metrics.
fn own_prefixes(
    alloc: Global,
    store: &Store,
    system: SystemId,
) -> Result<Vec<(Prefix, u32)>, OutOfMemory>
    ensures { IfOk result
        (λ own. own.items ≡ map own_of (reach_in store.now.entries system)) }
{
    let items = match reach(alloc, store, system) {
        Ok(items) => items,
        Err(error) => return Err(error),
    };
    let mut own = Vec::new(alloc);
    match add_own(&mut own, items.as_slice()) {
        Ok(()) => Ok(own),
        Err(error) => Err(error),
    }
}

/// Adds prefixes with their metrics.
fn add_own(own: &mut Vec<(Prefix, u32)>, items: &[PrefixItem]) -> Result<(), OutOfMemory>
    ensures { OnOk result (own.new.items ≡ own.old.items ++ map own_of items.now) }
{
    for item in items {
        match own.push((item.prefix, item.metric)) {
            Ok(()) => {}
            Err(_) => return Err(OutOfMemory),
        }
    }
    Ok(())
}
