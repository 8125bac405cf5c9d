//! What may become of a packet, whichever ways it takes.
ghost use Rattle.std.specs.Prelude.{◌≡◌, ◌<◌, ℕ, IfOk, IsTrue, ◌↔◌};
ghost use Rattle.trace_core.specs.Whichever.{may, AreOutcomes};
ghost use Rattle.trace_core.specs.Reaching.{AreBelow, EndsAmong, LoopsAmong};

use crate::outcomes::Outcomes;
use crate::reaching::{is_among, reached};
use crate::step::Step;
use crate::ways::Ways;
use std::alloc::{AllocError, Global};

/// What may become of a packet from a place, whichever ways it takes.
pub fn whichever<W: Ways>(alloc: Global, among: &W, from: usize) -> Result<Outcomes, AllocError>
    requires { from < W.many among.now }
    ensures { IfOk result (λ outcomes. AreOutcomes (W.ways among.now) from outcomes) }
{
    let mut places = match reached(alloc, among, from) {
        Ok(places) => places,
        Err(fault) => return Err(fault),
    };
    match places.push(from) {
        Ok(()) => {}
        Err(fault) => return Err(fault.into()),
    }
    let loops = match loops_among(alloc, among, places.as_slice()) {
        Ok(loops) => loops,
        Err(fault) => return Err(fault),
    };
    Ok(Outcomes {
        arrives: ends_among(among, places.as_slice(), Step::Home),
        loops,
        lost: ends_among(among, places.as_slice(), Step::Lost),
    })
}

/// Whether a packet may end so at one of these places.
fn ends_among<W: Ways>(among: &W, places: &[usize], end: Step) -> bool
    requires { AreBelow (W.many among.now) places.now }
    ensures { IsTrue result ↔ EndsAmong (W.ways among.now) places.now end }
{
    for at in 0..places.len() {
        if may_be(among, places[at], end) {
            return true;
        }
    }
    false
}

/// Whether one of the ways at a place is this.
fn may_be<W: Ways>(among: &W, place: usize, end: Step) -> bool
    requires { place < W.many among.now }
    ensures { IsTrue result ↔ may (W.ways among.now) place end }
{
    for number in 0..among.count(place) {
        if among.way(place, number) == end {
            return true;
        }
    }
    false
}

/// Whether a packet may come back to one of these places.
fn loops_among<W: Ways>(alloc: Global, among: &W, places: &[usize]) -> Result<bool, AllocError>
    requires { AreBelow (W.many among.now) places.now }
    ensures { IfOk result (λ loops. IsTrue loops ↔ LoopsAmong (W.ways among.now) places.now) }
{
    for at in 0..places.len() {
        let place = places[at];
        let found = match reached(alloc, among, place) {
            Ok(found) => found,
            Err(fault) => return Err(fault),
        };
        if is_among(found.as_slice(), place) {
            return Ok(true);
        }
    }
    Ok(false)
}
