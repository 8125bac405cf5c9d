//! Whether groups are those at the end of a line where nothing is lost.
ghost use Rattle.std.specs.Prelude.{◌≡◌, ◌&&◌, length, slice_get};
ghost use Rattle.std.specs.Option.{option_map};
ghost use Rattle.lab_losses.specs.Alike.{are_alike, alike_at};

use crate::replay::Replay;
use isis_base::{Level, OutOfMemory};
use lossy_runs::Judge;
use network_lab::Groups;

/// The groups of both levels that a network should have.
#[derive(Drop)]
pub struct SameGroups {
    /// Those of level 1.
    pub one: Groups,
    /// Those of level 2.
    pub two: Groups,
}

impl<'a, 's> Judge<Replay<'a, 's>> for SameGroups {
    ghost use Rattle.lab_losses.specs.Alike.{has_groups};

    ghost is_good = { λ judge net. has_groups judge.one judge.two net };

    fn is_good(&self, lab: &Replay<'a, 's>) -> Result<bool, OutOfMemory> {
        let one = match lab.net().agreed(Level::One) {
            Ok(groups) => groups,
            Err(error) => return Err(error),
        };
        let two = match lab.net().agreed(Level::Two) {
            Ok(groups) => groups,
            Err(error) => return Err(error),
        };
        let alike = are_alike(&one, &self.one) & are_alike(&two, &self.two);
        Ok(alike)
    }
}

/// Whether groups are the same.
fn are_alike(a: &Groups, b: &Groups) -> bool
    ensures { result ≡ are_alike a.now b.now }
{
    if a.len() != b.len() {
        return false;
    }
    for place in 0..a.len() {
        if !is_alike(a, b, place) {
            return false;
        }
    }
    true
}

/// Whether the groups at a place are the same.
fn is_alike(a: &Groups, b: &Groups, place: usize) -> bool
    ensures { result ≡ alike_at (slice_get a.now place) (slice_get b.now place) }
{
    match (a.get(place), b.get(place)) {
        (Some(x), Some(y)) => x == y,
        _ => false,
    }
}
