//! A packet followed to its end.
ghost use Rattle.std.specs.Prelude.{◌≡◌, ◌<◌, ℕ, IfOk, MatchOption, MatchResult, slice_get};
ghost use Rattle.std.specs.List.{Contains};
ghost use Rattle.trace_core.specs.Traces.{IsTraced, IsEnd, IsNew};

use crate::places::Places;
use crate::step::{End, Step, Traced};
use std::alloc::{AllocError, Global};

/// Follows a packet from a place until it is at home, is lost, or comes to a place where it was.
pub fn trace<P: Places>(alloc: Global, among: &P, from: usize) -> Result<Traced, AllocError>
    requires { from < P.many among.now }
    ensures { IfOk result (λ traced. IsTraced (P.is among.now) from traced) }
{
    let mut places = Vec::new(alloc);
    let mut place = from;
    loop {
        match places.push(place) {
            Ok(()) => {}
            Err(fault) => return Err(fault.into()),
        }
        match onward(among, places.as_slice(), place) {
            Ok(next) => place = next,
            Err(end) => return Ok(Traced { places, end }),
        }
    }
}

/// The next place, where the packet hasn't been; or how its way ends.
fn onward<P: Places>(among: &P, places: &[usize], place: usize) -> Result<usize, End>
    requires { place < P.many among.now }
    ensures { MatchResult result
        (IsNew (P.is among.now) (P.many among.now) places.now place)
        (IsEnd (P.is among.now) places.now place) }
{
    match among.step(place) {
        Step::Home => Err(End::Arrives),
        Step::Lost => Err(End::Lost),
        Step::On(next) => match place_of(places, next) {
            Some(back) => Err(End::Loops(back)),
            None => Ok(next),
        },
    }
}

/// Where a place stands among these; `None` exactly where it is none of them.
fn place_of(places: &[usize], next: usize) -> Option<usize>
    ensures { MatchOption result (Contains places.now next → ⊥)
        (λ at. slice_get places.now at ≡ Some next) }
{
    for at in 0..places.len() {
        if places[at] == next {
            return Some(at);
        }
    }
    None
}
