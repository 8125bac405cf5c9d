//! Laws: what becomes of adjacencies as the router's model has it in its circuits, and who is
//! designated among LAN neighbours.
ghost use Rattle.std.specs.Prelude.{◌≡◌, ◌≢◌, ◌↔◌, ℕ, ◌<◌, nat_lt, Bool, true, false, ◌&&◌, not, List, [], ◌∷◌, length, map, Option, Some, None, Contains};
ghost use Rattle.std.specs.Option.{option_map};
ghost use Rattle.std.specs.List.{AllByRecursion};
ghost use Rattle.isis_base.specs.declared.identifiers.SystemId.{SystemId};
ghost use Rattle.isis_base.specs.declared.level.Level.{Level};
ghost use Rattle.model_router.specs.Adjacencies as model;
ghost use Rattle.model_router.specs.Both.{Both, at};
ghost use Rattle.model_router.specs.Configs.{Config};
ghost use Rattle.model_router.specs.Routers.{LanNeighbour, Circuit, some_up};
ghost use Rattle.model_router.specs.Hellos.{comes_up, is_moved, lan_circuit, seen_so};
ghost use Rattle.model_router.specs.Seconds.{point_less, point_over, some_over};
ghost use Rattle.model_router.specs.Elections as elections;
ghost use Rattle.designated_is.specs.declared.candidate.Candidate.{Candidate};
ghost use Rattle.model_router.specs.Numbers.{system_number};
ghost use Rattle.designated_is.specs.Numbers.{candidate_of};
ghost use Rattle.designated_is.specs.Greatest.{IsElected, plain};
ghost use Rattle.adjacency.specs.declared.neighbour.Neighbour.{Neighbour};
ghost use Rattle.adjacency.specs.declared.held.Held.{Held};
ghost use Rattle.adjacency.specs.declared.hello.AdjChange.TheVariants as change;
ghost use Rattle.adjacency.specs.Views.{neighbour_of, point_of};
ghost use Rattle.adjacency.specs.Changes.{change_of};
ghost use Rattle.adjacency.specs.Lans.{AreHeard, ups, hear_lan, lan_change_of, lan_less_change, candidate_from};

use designated_is::election_laws;

/// Something becomes of a point-to-point adjacency exactly where the model has a hello due. It goes
/// up exactly where the model has it come up; one that was Up and is Up without that has kept its
/// neighbour.
pub fn point_laws()
    ensures hello { (old new : Held) (same : Bool)
        → (change_of (point_of old) (point_of new) same ≡ change.None)
        ↔ (is_moved (point_of old) (point_of new) same ≡ false) }
    ensures went_up { (old new : model.PointAdj) (same : Bool)
        → (change_of old new same ≡ change.WentUp) ↔ (comes_up old new same ≡ true) }
    ensures left_up { (old new : model.PointAdj) (same : Bool)
        → (change_of old new same ≡ change.LeftUp)
        ↔ ((model.is_up old.state && not (model.is_up new.state)) ≡ true) }
    ensures kept { (old new : model.PointAdj) (same : Bool)
        → model.is_up old.state ≡ true → model.is_up new.state ≡ true
        → change_of old new same ≢ change.WentUp → same ≡ true }
    ensures second { (old : Held)
        → (change_of (point_of old) (point_less (point_of old)) true ≡ change.None)
        ↔ (point_over (point_of old).neighbour ≡ false) }
{}

/// The neighbours of a LAN after a hello are those of the model's circuit. Something becomes of
/// them exactly where the model has a hello due, and some are Up exactly where the model has the
/// circuit open.
pub fn lan_laws()
    ensures heard { (c : Circuit) (level : Level) (common : Both Bool) (h : model.Hello)
        → (at (lan_circuit c level common h).levels level).heard
        ≡ hear_lan (at c.levels level).heard common h }
    ensures hello { (before : Option LanNeighbour) (boot : ℕ) (up : Bool)
        → (lan_change_of before boot up ≡ change.None) ↔ (seen_so before boot up ≡ true) }
    ensures second { (heard : List (ℕ × LanNeighbour))
        → (lan_less_change heard ≡ change.None) ↔ (some_over heard ≡ false) }
    ensures opened { (heard : List (ℕ × LanNeighbour))
        → some_up heard ≡ nat_lt 0 (length (ups heard)) }
{}

/// Who is elected over oneself and the neighbours in state Up is whom the model has designated,
/// which is nobody where none is Up. Its candidate, with the LAN ID, is that of the neighbour with
/// its system, or else oneself.
pub fn designated_laws()
    ensures elected { (config : Config) (place : ℕ) (c : Circuit) (level : Level)
        (mine : Candidate) (up : List Neighbour) (system : SystemId)
        → c.lan ≡ true → candidate_of mine ≡ plain (elections.oneself config place c)
        → map neighbour_of up ≡ ups (at c.levels level).heard → 0 < length up
        → IsElected (mine ∷ map candidate_from up) system
        → option_map (λ best. best.system) (elections.designated config place c level)
        ≡ Some (system_number system) }
    ensures nobody { (config : Config) (place : ℕ) (c : Circuit) (level : Level)
        → ups (at c.levels level).heard ≡ [] → elections.designated config place c level ≡ None }
    ensures neighbour { (best : elections.Candidate) (heard : List (ℕ × LanNeighbour))
        (n : model.Neighbour)
        → AreHeard heard → Contains (ups heard) n
        → n.system ≡ (elections.elect best heard).system → n.system ≢ best.system
        → elections.elect best heard ≡ elections.candidate n }
    ensures oneself { (best : elections.Candidate) (heard : List (ℕ × LanNeighbour))
        → AllByRecursion (λ pair. pair.1.neighbour.system ≢ best.system) heard
        → (elections.elect best heard).system ≡ best.system → elections.elect best heard ≡ best }
{
    election_laws();
}
