//! Neighbours in a list by SNPA: where one is, and how they are aged.
ghost use Rattle.std.specs.Prelude.{◌≡◌, ◌≤◌, ◌<◌, length, take, vec_capacity};
ghost use Rattle.model_router.specs.Sorted.{RisesFrom};
ghost use Rattle.model_router.specs.Numbers.{snpa_number};
ghost use Rattle.adjacency.specs.Views.{by_snpa};
ghost use Rattle.adjacency.specs.Inside.{IsAt, all_less, some_ended, less_by_one};

use crate::neighbour::Neighbour;
use designated_is::snpa_to_number;
use isis_base::Snpa;
use ordered::Keyed;

impl Keyed for Neighbour {
    ghost use Rattle.adjacency.specs.Views.{snpa_of};

    ghost key = { snpa_of };

    fn key(&self) -> u64 {
        snpa_to_number(self.snpa)
    }
}

/// Where the neighbour of an SNPA is, or where it would go.
pub fn place_of(list: &[Neighbour], snpa: Snpa) -> Result<usize, usize>
    requires { RisesFrom 0 (by_snpa list.now) }
    ensures { IsAt list.now (snpa_number snpa) result }
{
    ordered::place_of(list, snpa_to_number(snpa))
}

/// A second of each holding time: those that end go. Whether some do.
pub fn age(list: &mut Vec<Neighbour>) -> bool
    ensures items { list.new.items ≡ all_less list.old.items }
    ensures over { result ≡ some_ended list.old.items }
    ensures room { vec_capacity list.new ≡ vec_capacity list.old }
{
    let len = list.len();
    let kept = press(list);
    list.truncate(kept);
    kept < len
}

/// Moves those whose time doesn't end to the front, with a second less; how many they are.
fn press(list: &mut [Neighbour]) -> usize
    ensures front { take result list.new ≡ all_less list.old }
    ensures within { result ≤ length list.new }
{
    let mut kept = 0;
    for at in 0..list.len() {
        let neighbour = list[at];
        if neighbour.left > 1 {
            list[kept] = aged(neighbour);
            kept += 1;
        }
    }
    kept
}

/// A neighbour with a second less.
fn aged(neighbour: Neighbour) -> Neighbour
    requires { 1 < neighbour.left }
    ensures { result ≡ less_by_one neighbour }
{
    Neighbour {
        left: neighbour.left - 1,
        ..neighbour
    }
}
