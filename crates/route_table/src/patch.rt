//! What some prefixes' routes become.

ghost use Rattle.std.specs.Prelude.{◌≡◌, ◌≤◌, ◌<◌, ◌↔◌, ℕ, true, false, length, slice_index_or, IfOk};
ghost use Rattle.std.specs.Bool.{MatchBool};
ghost use Rattle.route_table.specs.declared.candidate.Candidate.{Candidate};
ghost use Rattle.route_table.specs.Ranks.{prefix_number};
ghost use Rattle.route_table.specs.Order.{IsListedHop, AreInOrder};
ghost use Rattle.route_table.specs.Patches.{ArePrefixesInOrder, AreInTurn, ArePatches, HavePatches, IsAgain, IsListed, IsPatchOf, is_touched};
ghost use Rattle.route_table.specs.Patches.{Fits, TakesNoMore, coming, more_by};
ghost use Rattle.route_table.specs.Putting.{IsFirstFor};
ghost use Rattle.route_table.specs.Routes.{AreRising};

use crate::best::route_at;
use crate::candidate::Candidate;
use crate::order::{in_order, prefix_number};
use crate::putting::{is_held, place_of};
use crate::room::room_of;
use crate::route::Route;
use crate::table::Routes;
use isis_base::{OutOfMemory, Prefix};
use spf_tree::HopTable;
use std::alloc::Global;
use std::marker::Model;

/// What a prefix's route becomes: `None` where it has none then (own).
#[derive(Drop, Debug)]
pub struct Patch {
    pub prefix: Prefix,
    pub route: Option<Route>,
}

/// What some prefixes' routes become, in order of prefix, with the room that putting them in takes, where the table that
/// they fit has none for the routes that come (own).
#[derive(Drop, Debug)]
pub struct Patches {
    pub(crate) list: Vec<Patch>,
    pub(crate) room: Option<Vec<Route>>,
}

impl Model for Patches {
    ghost use Rattle.std.specs.Prelude.{vec_capacity};
    ghost use Rattle.std.specs.Option.{option_map};
    ghost use Rattle.route_table.specs.Patches.{PatchesOf, AreInTurn, ArePatchesWithRoom};

    ghost Value = { PatchesOf };

    ghost view = { λ p. record {
      list = p.list.items;
      room = option_map (λ r. vec_capacity r) p.room;
    } };

    ghost invariant = { λ p. ArePatchesWithRoom p.list.items p.room };
}

/// What the routes of some prefixes become, by candidates that have all that are for these, and next hops, as it fits a table.
/// The prefixes are in any order.
pub fn patches_for(
    alloc: Global,
    held: &Routes,
    prefixes: Vec<Prefix>,
    candidates: &[Candidate],
    one: &HopTable,
    two: &HopTable,
) -> Result<Patches, OutOfMemory>
    ensures patches { IfOk result (λ p. ArePatches (IsListedHop one.now two.now) candidates.now p.list) }
    ensures touched { IfOk result (λ p. (n : ℕ)
        → is_touched p.list n ≡ true ↔ IsListed prefixes.items n) }
    ensures room { IfOk result (Fits held.now) }
    ensures spare { IfOk result (TakesNoMore held.now) }
{
    let prefixes = prefixes_in_order(prefixes);
    let sorted = in_order(alloc, candidates)?;
    let list = all_patches(alloc, prefixes.as_slice(), sorted.as_slice(), one, two)?;
    with_room(alloc, held.list(), list)
}

/// The prefixes in order.
fn prefixes_in_order(mut prefixes: Vec<Prefix>) -> Vec<Prefix>
    ensures order { ArePrefixesInOrder result.items }
    ensures same { (n : ℕ) → IsListed prefixes.items n ↔ IsListed result.items n }
{
    prefixes.sort_unstable_by_key(|prefix| prefix_number(*prefix));
    prefixes
}

/// A patch for each prefix.
fn all_patches(
    alloc: Global,
    prefixes: &[Prefix],
    sorted: &[Candidate],
    one: &HopTable,
    two: &HopTable,
) -> Result<Vec<Patch>, OutOfMemory>
    requires prefixes { ArePrefixesInOrder prefixes.now }
    requires order { AreInOrder sorted.now }
    ensures { IfOk result (λ list. HavePatches (IsListedHop one.now two.now) sorted.now
        prefixes.now list.items (length prefixes.now)) }
{
    let mut list = Vec::new(alloc);
    for place in 0..prefixes.len() {
        if is_again(prefixes, place) {
            continue;
        }
        let patch = match patch_of(alloc, prefixes[place], sorted, one, two) {
            Ok(patch) => patch,
            Err(error) => return Err(error),
        };
        match list.push(patch) {
            Ok(()) => {}
            Err(_) => return Err(OutOfMemory),
        }
    }
    Ok(list)
}

/// Whether the prefix at a place is the one before it.
fn is_again(prefixes: &[Prefix], place: usize) -> bool
    requires { place < length prefixes.now }
    ensures { MatchBool result (IsAgain prefixes.now place) (IsAgain prefixes.now place → ⊥) }
{
    place > 0 && prefix_number(prefixes[place]) == prefix_number(prefixes[place - 1])
}

/// The patch for a prefix.
fn patch_of(
    alloc: Global,
    prefix: Prefix,
    sorted: &[Candidate],
    one: &HopTable,
    two: &HopTable,
) -> Result<Patch, OutOfMemory>
    requires { AreInOrder sorted.now }
    ensures { IfOk result (λ patch. IsPatchOf (IsListedHop one.now two.now) sorted.now prefix patch) }
{
    let first = first_for(sorted, prefix);
    if !is_for(sorted, first, prefix) {
        return Ok(Patch {
            prefix,
            route: None,
        });
    }
    match route_at(alloc, sorted, first, one, two) {
        Ok(route) => Ok(Patch {
            prefix,
            route: Some(route),
        }),
        Err(error) => Err(error),
    }
}

/// The place of the first candidate whose prefix isn't below this one.
fn first_for(sorted: &[Candidate], prefix: Prefix) -> usize
    requires { AreInOrder sorted.now }
    ensures { IsFirstFor sorted.now (prefix_number prefix) result }
{
    let wanted = prefix_number(prefix);
    let (mut low, mut high) = (0, sorted.len());
    while low < high {
        let middle = low + (high - low) / 2;
        if prefix_number(sorted[middle].prefix) < wanted {
            low = middle + 1;
        } else {
            high = middle;
        }
    }
    low
}

/// Whether the candidate at a place is for a prefix.
fn is_for(sorted: &[Candidate], place: usize, prefix: Prefix) -> bool
    ensures within { result ≡ true → place < length sorted.now }
    ensures same { result ≡ true → (d : Candidate)
        → prefix_number (slice_index_or sorted.now place d).prefix ≡ prefix_number prefix }
    ensures other { result ≡ false → place < length sorted.now → (d : Candidate)
        → prefix_number (slice_index_or sorted.now place d).prefix ≡ prefix_number prefix → ⊥ }
{
    if place >= sorted.len() {
        return false;
    }
    prefix_number(sorted[place].prefix) == prefix_number(prefix)
}

/// Patches as they fit these routes: without room where a table of so many has it, or with room for all that there are then.
fn with_room(alloc: Global, held: &[Route], list: Vec<Patch>) -> Result<Patches, OutOfMemory>
    requires rising { AreRising held.now }
    requires turn { AreInTurn list.items }
    ensures list { IfOk result (λ p. p.list ≡ list.items) }
    ensures room { IfOk result (Fits held.now) }
    ensures spare { IfOk result (TakesNoMore held.now) }
{
    let Some(many) = held.len().checked_add(count_coming(held, list.as_slice())) else {
        return Err(OutOfMemory);
    };
    if many <= room_of(held.len())? {
        return Ok(Patches { list, room: None });
    }
    match Vec::with_capacity(alloc, room_of(many)?) {
        Ok(room) => Ok(Patches {
            list,
            room: Some(room),
        }),
        Err(_) => Err(OutOfMemory),
    }
}

/// How many routes come by patches.
fn count_coming(routes: &[Route], list: &[Patch]) -> usize
    requires { AreRising routes.now }
    ensures { result ≡ coming routes.now list.now }
{
    let mut many = 0;
    for place in 0..list.len() {
        many += more_by(routes, &list[place]);
    }
    many
}

/// How many routes come by a patch.
fn more_by(routes: &[Route], patch: &Patch) -> usize
    requires { AreRising routes.now }
    ensures more { result ≡ more_by routes.now (prefix_number patch.now.prefix) patch.now.route }
    ensures few { result ≤ 1 }
{
    let wanted = prefix_number(patch.prefix);
    let place = place_of(routes, wanted);
    match patch.route {
        Some(_) => { if is_held(routes, wanted, place) { 0 } else { 1 } }
        None => 0,
    }
}
