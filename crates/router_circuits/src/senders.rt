//! Of whom a datagram may come.
ghost use Rattle.std.specs.Prelude.{◌≡◌, ℕ, List, map, Some};
ghost use Rattle.std.specs.Option.{option_map};
ghost use Rattle.model_router.specs.Maps.{find};
ghost use Rattle.model_router.specs.Receiving as receiving;
ghost use Rattle.model_router.specs.Routers as routers;
ghost use Rattle.model_router.specs.Numbers.{snpa_number, system_number};
ghost use Rattle.model_router.specs.Sorted.{RisesFrom};
ghost use Rattle.adjacency.specs.Views.{by_snpa, neighbour_of, point_of};
ghost use Rattle.adjacency.specs.Lans.{AreHeard, ups};
ghost use Rattle.router_desk.specs.Opening.{envelope_of};

use crate::by_snpa::neighbour_at;
use crate::circuit::Circuit;
use crate::greeting;
use adjacency::{Neighbour, P2pAdj};
use isis_base::{Level, SystemId};
use router_desk::Envelope;

impl Circuit {
    /// Whether the circuit has an up adjacency of a level, which opens it (own).
    pub fn is_open(&self, level: Level) -> bool
        ensures { result ≡ routers.is_open self.now level }
    {
        match self.point() {
            Some(point) => greeting::is_open(point, level),
            None => some_up(self.up(level)),
        }
    }

    /// The system of the neighbour from whom a datagram of a level may come (ISO 10589 7.3.15.1,
    /// 7.3.15.2): on a LAN the up neighbour of its SNPA, else the one that is kept; its boot number
    /// is the one that is kept (own).
    pub fn sender(&self, level: Level, from: Envelope) -> Option<SystemId>
        ensures { option_map system_number result
            ≡ receiving.sender_of self.now level (envelope_of from) }
    {
        match self.point() {
            Some(point) => kept_system(point, from.boot),
            None => up_system(self.up(level), from),
        }
    }
}

/// Whether there is a neighbour in state Up.
pub(crate) fn some_up(up: &[Neighbour]) -> bool
    ensures { (heard : List (ℕ × routers.LanNeighbour)) → map neighbour_of up.now ≡ ups heard
        → result ≡ routers.some_up heard }
{
    !up.is_empty()
}

/// The system of the point-to-point neighbour that is kept, in this boot.
fn kept_system(point: &P2pAdj, boot: u32) -> Option<SystemId>
    ensures { option_map system_number result
        ≡ receiving.kept_system (point_of point.now).neighbour boot }
{
    match point.neighbour() {
        Some(neighbour) => system_in(neighbour, boot),
        None => None,
    }
}

/// The system of a neighbour, where it is in this boot.
fn system_in(neighbour: &Neighbour, boot: u32) -> Option<SystemId>
    ensures { option_map system_number result
        ≡ receiving.kept_system (Some (neighbour_of neighbour.now)) boot }
{
    if neighbour.boot == boot {
        return Some(neighbour.system);
    }
    None
}

/// The system of the neighbour of an SNPA among those Up, in this boot.
fn up_system(up: &[Neighbour], from: Envelope) -> Option<SystemId>
    requires { RisesFrom 0 (by_snpa up.now) }
    ensures { (heard : List (ℕ × routers.LanNeighbour)) → AreHeard heard
        → map neighbour_of up.now ≡ ups heard
        → option_map system_number result
        ≡ receiving.up_system (find heard (snpa_number from.snpa)) from.boot }
{
    match neighbour_at(up, from.snpa) {
        Some(neighbour) => system_in(neighbour, from.boot),
        None => None,
    }
}
