//! The two lists of a LAN, all neighbours and those in state Up, changed together.
ghost use Rattle.std.specs.Prelude.{◌≡◌, ℕ, List, ◌<◌, ◌≤◌, ◌⊎◌, length, vec_capacity, Option, IsSome, if◌then◌else◌};
ghost use Rattle.model_router.specs.Maps.{find, put, erase};
ghost use Rattle.model_router.specs.Routers.{LanNeighbour};
ghost use Rattle.model_router.specs.Seconds as seconds;
ghost use Rattle.model_router.specs.Numbers.{system_number};
ghost use Rattle.adjacency.specs.Views.{by_snpa, snpa_of, neighbour_of};
ghost use Rattle.adjacency.specs.Inside.{lan_of, IsLan, IsAt, keeps_boot};
ghost use Rattle.adjacency.specs.Lans as lan;

use crate::by_snpa::{age, place_of};
use crate::hello::AdjChange;
use crate::neighbour::Neighbour;
use designated_is::snpa_to_number;
use ordered::{put_at, take_at};

/// Keeps a neighbour, Up or not, at the place that it has among those heard.
pub fn keep(
    heard: &mut Vec<Neighbour>,
    up: &mut Vec<Neighbour>,
    place: Result<usize, usize>,
    neighbour: Neighbour,
    is_up: bool,
) -> AdjChange
    requires lan { IsLan heard.old.items up.old.items
        (vec_capacity heard.old) (vec_capacity up.old) }
    requires place { IsAt heard.old.items (snpa_of neighbour) place }
    requires room { (length heard.old.items < 200)
        ⊎ IsSome (find (by_snpa heard.old.items) (snpa_of neighbour)) }
    requires system { system_number neighbour.system ≡ snpa_of neighbour }
    ensures lan { IsLan heard.new.items up.new.items
        (vec_capacity heard.new) (vec_capacity up.new) }
    ensures kept { lan_of heard.new.items up.new.items ≡ put (lan_of heard.old.items up.old.items)
        (snpa_of neighbour) (record { up = is_up; neighbour = neighbour_of neighbour }) }
    ensures change { result ≡ lan.lan_change_of
        (find (lan_of heard.old.items up.old.items) (snpa_of neighbour)) neighbour.boot is_up }
{
    let same_boot = is_in_boot(heard, place, neighbour);
    let up_place = place_of(up, neighbour.snpa);
    put_at(heard, place, neighbour);
    put_or_take_out(up, up_place, neighbour, is_up);
    change(same_boot, up_place.is_ok(), is_up)
}

/// Whether the neighbour at this one's place is in its boot.
fn is_in_boot(heard: &[Neighbour], place: Result<usize, usize>, neighbour: Neighbour) -> bool
    requires { IsAt heard.now (snpa_of neighbour) place }
    ensures { result ≡ keeps_boot (find (by_snpa heard.now) (snpa_of neighbour)) neighbour.boot }
{
    match place {
        Ok(at) => heard[at].boot == neighbour.boot,
        Err(_) => false,
    }
}

/// Puts a neighbour in that is Up, and takes one out that isn't.
fn put_or_take_out(
    up: &mut Vec<Neighbour>,
    place: Result<usize, usize>,
    neighbour: Neighbour,
    is_up: bool,
)
    requires place { IsAt up.old.items (snpa_of neighbour) place }
    requires room { length (put (by_snpa up.old.items) (snpa_of neighbour) neighbour)
        ≤ vec_capacity up.old }
    ensures items { by_snpa up.new.items ≡ (if is_up
        then put (by_snpa up.old.items) (snpa_of neighbour) neighbour
        else erase (by_snpa up.old.items) (snpa_of neighbour)) }
    ensures room { vec_capacity up.new ≡ vec_capacity up.old }
{
    if is_up {
        put_at(up, place, neighbour);
        return;
    }
    take_at(up, place, snpa_to_number(neighbour.snpa));
}

/// What became of a neighbour.
fn change(same_boot: bool, was_up: bool, is_up: bool) -> AdjChange
    ensures { (before : Option LanNeighbour) (boot : ℕ) → same_boot ≡ lan.has_boot before boot
        → was_up ≡ lan.was_up before → result ≡ lan.lan_change_of before boot is_up }
{
    if is_up && !was_up {
        return AdjChange::WentUp;
    }
    if was_up && !is_up {
        return AdjChange::LeftUp;
    }
    if same_boot {
        return AdjChange::None;
    }
    AdjChange::Moved
}

/// A second of all holding times.
pub fn age_both(heard: &mut Vec<Neighbour>, up: &mut Vec<Neighbour>) -> AdjChange
    requires { IsLan heard.old.items up.old.items
        (vec_capacity heard.old) (vec_capacity up.old) }
    ensures lan { IsLan heard.new.items up.new.items
        (vec_capacity heard.new) (vec_capacity up.new) }
    ensures less { lan_of heard.new.items up.new.items
        ≡ seconds.heard_less (lan_of heard.old.items up.old.items) }
    ensures change { result ≡ lan.lan_less_change (lan_of heard.old.items up.old.items) }
{
    let some_over = age(heard);
    let some_up_over = age(up);
    second_change(some_over, some_up_over)
}

/// What becomes of the neighbours in a second.
fn second_change(some_over: bool, some_up_over: bool) -> AdjChange
    ensures { (before : List (ℕ × LanNeighbour)) → some_over ≡ seconds.some_over before
        → some_up_over ≡ lan.some_up_over before → result ≡ lan.lan_less_change before }
{
    if some_up_over {
        return AdjChange::LeftUp;
    }
    if some_over {
        return AdjChange::Moved;
    }
    AdjChange::None
}
