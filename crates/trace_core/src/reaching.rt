//! Where a packet may come to.
ghost use Rattle.std.specs.Prelude.{◌≡◌, ◌<◌, ℕ, IfOk, OnOk, MatchBool, IsTrue, ◌↔◌};
ghost use Rattle.std.specs.List.{Contains};
ghost use Rattle.trace_core.specs.Reaching.{AreReached, IsAdded, IsSpread, IsWith};

use crate::step::Step;
use crate::ways::Ways;
use std::alloc::{AllocError, Global};

/// The places that a packet may come to from a place, after one move at least.
pub(crate) fn reached<W: Ways>(
    alloc: Global,
    among: &W,
    from: usize,
) -> Result<Vec<usize>, AllocError>
    requires { from < W.many among.now }
    ensures { IfOk result (λ found. AreReached (W.ways among.now) (W.many among.now) from found.items) }
{
    let mut found = Vec::new(alloc);
    match spread(among, &mut found, from) {
        Ok(()) => {}
        Err(fault) => return Err(fault),
    }
    let mut done = 0;
    while done < found.len() {
        let place = found[done];
        match spread(among, &mut found, place) {
            Ok(()) => {}
            Err(fault) => return Err(fault),
        }
        done += 1;
    }
    Ok(found)
}

/// Adds the places that a packet may go on to from a place, unless they are among those found.
fn spread<W: Ways>(among: &W, found: &mut Vec<usize>, place: usize) -> Result<(), AllocError>
    requires { place < W.many among.now }
    ensures { OnOk result (IsSpread (W.ways among.now) (W.many among.now) place found.old.items found.new.items) }
{
    for number in 0..among.count(place) {
        match add_step(found, among.way(place, number)) {
            Ok(()) => {}
            Err(fault) => return Err(fault),
        }
    }
    Ok(())
}

/// Adds the place that a step leads to, unless it is among those found.
fn add_step(found: &mut Vec<usize>, step: Step) -> Result<(), AllocError>
    ensures { OnOk result (IsAdded step found.old.items found.new.items) }
{
    match step {
        Step::On(next) => add_new(found, next),
        Step::Home | Step::Lost => Ok(()),
    }
}

/// Adds a place, unless it is among those found.
fn add_new(found: &mut Vec<usize>, next: usize) -> Result<(), AllocError>
    ensures { OnOk result (IsWith next found.old.items found.new.items) }
{
    if is_among(found.as_slice(), next) {
        return Ok(());
    }
    match found.push(next) {
        Ok(()) => Ok(()),
        Err(fault) => Err(fault.into()),
    }
}

/// Whether a place is one of these.
pub(crate) fn is_among(places: &[usize], place: usize) -> bool
    ensures { IsTrue result ↔ Contains places.now place }
{
    places.contains(&place)
}
