//! The prefixes of the system's LSP.
ghost use Rattle.std.specs.Prelude.{◌≡◌, map, IfOk, OnOk};
ghost use Rattle.model_router.specs.LspPrefixes.{own_reach, with_leaks};
ghost use Rattle.model_router.specs.Sorted.{RisesFrom};
ghost use Rattle.lsp_fragments.specs.Entries.{reach_pair};
ghost use Rattle.isis_base.specs.Prefixes.{prefix_number};
ghost use Rattle.router_wanted.specs.Parts.{IsSpot, is_down, is_leaked_into, leaked_or, with_leak};
ghost use Rattle.router_wanted.specs.Views.{prefix_pair};

use crate::wants::Wants;
use isis_base::{Level, LevelSet, OutOfMemory, Prefix};
use isis_tlv::PrefixItem;
use ordered::place_of;
use std::alloc::Global;

/// The prefixes of a level: one's own, and those that are leaked into it (RFC 5302 3), by address
/// and length.
pub(crate) fn reaches(
    alloc: Global,
    base: &Wants<'_>,
    level: Level,
    leaks: &[(Prefix, u32)],
) -> Result<Vec<PrefixItem>, OutOfMemory>
    requires { RisesFrom 0 (map prefix_pair base.now.prefixes.now) }
    ensures { IfOk result (λ list. map reach_pair list.items ≡ leaked_or
        (is_leaked_into base.now level) (is_down level)
        (own_reach (map prefix_pair base.now.prefixes.now)) (map prefix_pair leaks.now)) }
{
    let mut list = match own(alloc, base.prefixes) {
        Ok(list) => list,
        Err(error) => return Err(error),
    };
    if !is_leaked_into(base, level) {
        return Ok(list);
    }
    match add_leaks(&mut list, is_down(level), leaks) {
        Ok(()) => Ok(list),
        Err(error) => Err(error),
    }
}

/// Whether prefixes are leaked into a level: into level 1 where that is configured, into level 2 by
/// every router of both (RFC 5302 3).
fn is_leaked_into(base: &Wants<'_>, level: Level) -> bool
    ensures { result ≡ is_leaked_into base.now level }
{
    match level {
        Level::One => base.levels == LevelSet::Both && base.leak,
        Level::Two => base.levels != LevelSet::Two,
    }
}

/// Whether what is leaked into a level has the up/down bit (RFC 5302 3).
fn is_down(level: Level) -> bool
    ensures { result ≡ is_down level }
{
    match level {
        Level::One => true,
        Level::Two => false,
    }
}

/// One's own prefixes.
fn own(alloc: Global, prefixes: &[(Prefix, u32)]) -> Result<Vec<PrefixItem>, OutOfMemory>
    ensures { IfOk result (λ list. map reach_pair list.items
        ≡ own_reach (map prefix_pair prefixes.now)) }
{
    let mut list = Vec::with_capacity(alloc, prefixes.len())?;
    for (prefix, metric) in prefixes {
        let item = PrefixItem {
            prefix: *prefix,
            metric: *metric,
            down: false,
        };
        list.push(item)?;
    }
    Ok(list)
}

/// Adds what is leaked. A prefix that is there stays as it is.
fn add_leaks(
    list: &mut Vec<PrefixItem>,
    down: bool,
    leaks: &[(Prefix, u32)],
) -> Result<(), OutOfMemory>
    requires { RisesFrom 0 (map reach_pair list.old.items) }
    ensures { OnOk result (map reach_pair list.new.items
        ≡ with_leaks down (map reach_pair list.old.items) (map prefix_pair leaks.now)) }
{
    for (prefix, metric) in leaks {
        let item = PrefixItem {
            prefix: *prefix,
            metric: *metric,
            down,
        };
        match add_leak(list, item) {
            Ok(()) => {}
            Err(error) => return Err(error),
        }
    }
    Ok(())
}

/// Adds a prefix that is leaked, where it isn't there.
fn add_leak(list: &mut Vec<PrefixItem>, item: PrefixItem) -> Result<(), OutOfMemory>
    requires { RisesFrom 0 (map reach_pair list.old.items) }
    ensures ok { OnOk result (map reach_pair list.new.items
        ≡ with_leak (map reach_pair list.old.items) (reach_pair item)) }
    ensures rises { RisesFrom 0 (map reach_pair list.new.items) }
{
    let Some(place) = gap_of(list, item.prefix) else {
        return Ok(());
    };
    match list.insert(place, item) {
        Ok(()) => Ok(()),
        Err(_) => Err(OutOfMemory),
    }
}

/// Where a prefix would go that isn't there.
fn gap_of(list: &[PrefixItem], prefix: Prefix) -> Option<usize>
    requires { RisesFrom 0 (map reach_pair list.now) }
    ensures { IsSpot list.now (prefix_number prefix) result }
{
    match place_of(list, prefix.to_number()) {
        Ok(_) => None,
        Err(place) => Some(place),
    }
}
