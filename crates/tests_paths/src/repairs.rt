//! Changes in tables, of spf_repair: what no clause says of them is how they come out on whole graphs.
ghost use Rattle.std.specs.Prelude.{◌≡◌, ◌<◌};

use crate::graphs::{graph, node};
use isis_base::OutOfMemory;
use spf_repair::{Repaired, Steps};
use spf_tree::{Row, from_scratch};
use std::alloc::Global;
use std::marker::Brand;
use std::sync::ledger::{Blank, Ledger};

/// A ring of twelve systems.
const RING: &str =
    "1-2:10 2-1:10 2-3:10 3-2:10 3-4:10 4-3:10 4-5:10 5-4:10 5-6:10 6-5:10 6-7:10 7-6:10 7-8:10 8-7:10 8-9:10 9-8:10 9-10:10 10-9:10 10-11:10 11-10:10 11-12:10 12-11:10 12-1:10 1-12:10";

/// A triangle with one long side.
const TRIANGLE: &str = "1-2:10 2-1:10 2-3:10 3-2:10 1-3:30 3-1:30";

/// Puts rows in place of the one at a place; `false` where there is none.
fn replace_at<L: Ledger>(
    kept: &mut Repaired,
    place: usize,
    added: &[Row],
    steps: &mut Steps<L>,
) -> Result<bool, OutOfMemory> {
    let rows = kept.graph().rows();
    if place >= rows.len() || rows.len() > 4_000_000_000 || added.len() > 1000 {
        return Ok(false);
    }
    let old = rows[place];
    match kept.change([old].as_slice(), added, steps) {
        Ok(()) => Ok(true),
        Err(error) => Err(error),
    }
}

/// The repaired distances of rows from system 1.
fn repaired(alloc: Global, words: &str) -> Option<Repaired> {
    let graph = graph(alloc, words, None)?;
    Repaired::new(alloc, &graph, node(1)).ok()
}

/// Whether the distances of systems 1 to 12 are those from scratch.
fn are_right(alloc: Global, repaired: &Repaired) -> Result<bool, OutOfMemory> {
    let fresh = from_scratch(alloc, repaired.graph(), node(1))?;
    for number in 1..13 {
        if repaired.distances().get(node(number)) != fresh.get(node(number)) {
            return Ok(false);
        }
    }
    Ok(true)
}

/// The row of a ring that a change of a list is of, and its new metric.
fn changed(kept: &Repaired, list: u32, change: u32) -> Option<(usize, Row)> {
    let place = ((5 * (change % 8) + 3 * (list % 64)) % 24) as usize;
    let old = *kept.graph().rows().get(place)?;
    let metric = 1 + (7 * (change % 8) + list % 64) % 20;
    Some((place, Row { metric, ..old }))
}

/// Whether the distances are right after a change of one row.
fn change_is_right<L: Ledger>(
    alloc: Global,
    kept: &mut Repaired,
    change: Option<(usize, Row)>,
    steps: &mut Steps<L>,
) -> Result<bool, OutOfMemory> {
    let Some((place, new)) = change else {
        return Ok(false);
    };
    match replace_at(kept, place, [new].as_slice(), steps) {
        Ok(true) => are_right(alloc, kept),
        Ok(false) => Ok(false),
        Err(error) => Err(error),
    }
}

/// Whether the distances are right after each of eight changes of one row of a ring of twelve systems.
fn list_is_right<L: Ledger>(
    alloc: Global,
    kept: &mut Repaired,
    list: u32,
    steps: &mut Steps<L>,
) -> bool {
    for change in 0..8u32 {
        let change = changed(kept, list, change);
        if change_is_right(alloc, kept, change, steps) != Ok(true) {
            return false;
        }
    }
    kept.changes() == 8
}

/// The first of 64 lists whose distances are wrong, 64 where those of all are right.
fn wrong_list<L: Ledger>(alloc: Global, blank: Blank) -> Option<u32>
    requires name { blank.name ≡ L.name }
    requires parts { blank.parts ≡ L.parts }
    requires some { 0 < blank.parts }
{
    let mut steps = Steps::<L>::new(blank);
    let ring = repaired(alloc, RING)?;
    for list in 0..64 {
        let mut kept = match ring.copy() {
            Ok(copy) => copy,
            Err(OutOfMemory) => return Some(list),
        };
        if !list_is_right(alloc, &mut kept, list, &mut steps) {
            return Some(list);
        }
    }
    Some(64)
}

/// The distances of system 3 and of system 2.
fn costs(kept: &Repaired) -> (Option<u64>, Option<u64>) {
    (kept.distances().get(node(3)), kept.distances().get(node(2)))
}

/// Whether the distances of a triangle are right while the row from 2 to 3 goes and the long one gets short.
fn triangle<L: Ledger>(alloc: Global, blank: Blank) -> Option<bool>
    requires name { blank.name ≡ L.name }
    requires parts { blank.parts ≡ L.parts }
    requires some { 0 < blank.parts }
{
    let mut steps = Steps::<L>::new(blank);
    let mut kept = repaired(alloc, TRIANGLE)?;
    let first = costs(&kept) == (Some(20), Some(10));
    let _gone = replace_at(&mut kept, 3, &[], &mut steps).ok()?;
    let second = costs(&kept) == (Some(30), Some(10));
    let short = Row {
        from: node(1),
        to: node(3),
        metric: 5,
    };
    let _short = replace_at(&mut kept, 1, [short].as_slice(), &mut steps).ok()?;
    Some(first && second && costs(&kept) == (Some(5), Some(10)))
}

#[test]
fn lists_of_changes_leave_the_distances_from_scratch(rt: HostRuntime) {
    let blank = Blank::new(1);
    let right = wrong_list::<Brand>(rt.alloc(), blank);
    assert_eq!(rt; right, Some(64));
}

#[test]
fn a_triangle_is_repaired(rt: HostRuntime) {
    let blank = Blank::new(1);
    let right = triangle::<Brand>(rt.alloc(), blank);
    assert_eq!(rt; right, Some(true));
}
