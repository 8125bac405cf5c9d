//! The calls of a circuit's adjacencies.
ghost use Rattle.std.specs.Prelude.{◌≡◌, nat_le, true, false, map, [], IfOk, MatchOption};
ghost use Rattle.std.specs.List.{list_any};
ghost use Rattle.model_router.specs.Both.{at};
ghost use Rattle.router_desk.specs.Desks as desks;
ghost use Rattle.model_router.specs.Seconds.{heard_less, point_less, point_over, some_over};
ghost use Rattle.adjacency.specs.Views.{neighbour_of, point_of, point_down};
ghost use Rattle.adjacency.specs.Lans.{AreHeard, neighbours, ups};
ghost use Rattle.router_circuits.specs.Hellos.{both_less, is_change, is_over};
ghost use Rattle.router_circuits.specs.Views.{AllSized, AreSized, heard_in, is_lan, point_in};

use crate::medium::Medium;
use adjacency::{AdjChange, LanAdj, Neighbour, P2pAdj};
use isis_base::{CircuitKind, Level, OutOfMemory};
use std::alloc::Global;

impl Medium {
    /// The adjacencies of nobody.
    pub(crate) fn new(alloc: Global, kind: CircuitKind) -> Result<Medium, OutOfMemory>
        ensures lan { IfOk result (λ medium. is_lan medium ≡ desks.is_lan kind) }
        ensures point { IfOk result (λ medium. point_in medium ≡ point_down) }
        ensures heard { IfOk result (λ medium. heard_in medium ≡ record { one = []; two = [] }) }
        ensures sized { IfOk result (λ medium. AreSized medium) }
    {
        match kind {
            CircuitKind::PointToPoint => Ok(Medium::Point(P2pAdj::new())),
            CircuitKind::Lan => {
                let one = LanAdj::new(alloc)?;
                let two = LanAdj::new(alloc)?;
                Ok(Medium::Lan(one, two))
            }
        }
    }

    /// Equal adjacencies.
    pub(crate) fn copy(&self) -> Result<Medium, OutOfMemory>
        ensures { IfOk result (λ copy. copy ≡ self.now) }
    {
        match self {
            Medium::Point(point) => Ok(Medium::Point(*point)),
            Medium::Lan(one, two) => {
                let one = one.copy()?;
                let two = two.copy()?;
                Ok(Medium::Lan(one, two))
            }
        }
    }

    /// Whether it is a LAN.
    pub(crate) fn is_lan(&self) -> bool
        ensures { result ≡ is_lan self.now }
    {
        match self {
            Medium::Point(_) => false,
            Medium::Lan(_, _) => true,
        }
    }

    /// The point-to-point adjacency; `None` on a LAN.
    pub(crate) fn point(&self) -> Option<&P2pAdj>
        ensures { MatchOption result (is_lan self.now ≡ true)
            (λ point. (is_lan self.now ≡ false) × (point_of point.now ≡ point_in self.now)) }
    {
        match self {
            Medium::Point(point) => Some(point),
            Medium::Lan(_, _) => None,
        }
    }

    /// A level's adjacencies of a LAN; `None` on a point-to-point circuit.
    fn lan(&self, level: Level) -> Option<&LanAdj>
        ensures { MatchOption result (at (heard_in self.now) level ≡ [])
            (λ lan. lan.now ≡ at (heard_in self.now) level) }
    {
        match self {
            Medium::Point(_) => None,
            Medium::Lan(one, two) => match level {
                Level::One => Some(one),
                Level::Two => Some(two),
            },
        }
    }

    /// The neighbours in state Up on a LAN and level, by SNPA; none on a point-to-point circuit.
    pub(crate) fn up(&self, level: Level) -> &[Neighbour]
        ensures up { map neighbour_of result.now ≡ ups (at (heard_in self.now) level) }
        ensures heard { AreHeard (at (heard_in self.now) level) }
    {
        match self.lan(level) {
            Some(lan) => lan.up(),
            None => &[],
        }
    }

    /// All neighbours that are heard on a LAN and level, by SNPA; none on a point-to-point circuit.
    pub(crate) fn heard(&self, level: Level) -> &[Neighbour]
        ensures all { map neighbour_of result.now ≡ neighbours (at (heard_in self.now) level) }
        ensures heard { AreHeard (at (heard_in self.now) level) }
    {
        match self.lan(level) {
            Some(lan) => lan.heard(),
            None => &[],
        }
    }

    /// Whether the holding time of one ends within a second.
    pub(crate) fn is_ending(&self) -> bool
        ensures { result ≡ is_over self.now }
    {
        match self {
            Medium::Point(point) => point_ends(point),
            Medium::Lan(one, two) => lan_ends(one) || lan_ends(two),
        }
    }

    /// A second of each holding time; whether the time of one is over.
    pub(crate) fn second(&mut self) -> bool
        requires { AreSized self.old }
        ensures point { point_in self.new ≡ point_less (point_in self.old) }
        ensures heard { heard_in self.new ≡ both_less (heard_in self.old) }
        ensures lan { is_lan self.new ≡ is_lan self.old }
        ensures over { result ≡ is_over self.old }
        ensures sized { AreSized self.new }
    {
        match self {
            Medium::Point(point) => point_second(point),
            Medium::Lan(one, two) => {
                let one_over = lan_second(one);
                let two_over = lan_second(two);
                one_over | two_over
            }
        }
    }
}

/// Whether the time of a point-to-point adjacency ends within a second.
fn point_ends(point: &P2pAdj) -> bool
    ensures { result ≡ point_over (point_of point.now).neighbour }
{
    match point.neighbour() {
        Some(neighbour) => neighbour.left <= 1,
        None => false,
    }
}

/// Whether the time of one of a level's adjacencies of a LAN does.
fn lan_ends(lan: &LanAdj) -> bool
    ensures { result ≡ some_over lan.now }
{
    some_end(lan.heard())
}

/// Whether the time of one of these neighbours does.
fn some_end(neighbours: &[Neighbour]) -> bool
    ensures { result ≡ list_any (λ n. nat_le n.left 1) neighbours.now }
{
    neighbours.iter().any(|neighbour| neighbour.left <= 1)
}

/// A second of a point-to-point adjacency; whether its time is over.
fn point_second(point: &mut P2pAdj) -> bool
    ensures less { point_of point.new ≡ point_less (point_of point.old) }
    ensures over { result ≡ point_over (point_of point.old).neighbour }
{
    is_change(point.second())
}

/// A second of a level's adjacencies of a LAN; whether the time of one is over.
fn lan_second(lan: &mut LanAdj) -> bool
    ensures less { lan.new ≡ heard_less lan.old }
    ensures over { result ≡ some_over lan.old }
    ensures sized { AllSized lan.old → AllSized lan.new }
{
    is_change(lan.second())
}

/// Whether something became of an adjacency.
pub(crate) fn is_change(change: AdjChange) -> bool
    ensures { result ≡ is_change change }
{
    match change {
        AdjChange::None => false,
        _ => true,
    }
}
