//! Rows of groups of lab_facts.
use isis_base::OutOfMemory;
use lab_facts::{Groups, joined_groups};
use std::alloc::Global;

/// The place of the group that has a router; 9 where none has it.
fn place_of(groups: &Groups, router: usize) -> usize {
    for place in 0..groups.len() {
        if has(groups, place, router) {
            return place;
        }
    }
    9
}

/// Whether the group at a place has a router.
fn has(groups: &Groups, place: usize, router: usize) -> bool {
    match groups.get(place) {
        Some(routers) => routers.contains(&router),
        None => false,
    }
}

/// The places of three routers' groups, of which the second may not take part, with one pair.
fn places(alloc: Global, second: bool, pair: (usize, usize)) -> Result<[usize; 3], OutOfMemory> {
    let groups = joined_groups(alloc, &[true, second, true], &[pair])?;
    let copy = groups.copy()?;
    Ok([place_of(&groups, 0), place_of(&copy, 1), place_of(&copy, 2)])
}

#[test]
fn groups_of_rows(rt: HostRuntime) {
    let alloc = rt.alloc();
    assert_eq!(rt; places(alloc, true, (2, 1)), Ok([0, 1, 1]));
    assert_eq!(rt; places(alloc, true, (0, 2)), Ok([0, 1, 0]));
    assert_eq!(rt; places(alloc, false, (0, 1)), Ok([0, 9, 1]));
    assert!(rt; Groups::new(alloc).is_empty());
}
