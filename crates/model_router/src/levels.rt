//! The levels of a set.
ghost use Rattle.std.specs.Prelude.{◌≡◌};
ghost use Rattle.model_router.specs.Both.{at, runs_of};

use isis_base::{Level, LevelSet};

/// Whether a set of levels has a level (own).
pub fn has_level(levels: LevelSet, level: Level) -> bool
    ensures { result ≡ at (runs_of levels) level }
{
    match (levels, level) {
        (LevelSet::One, Level::Two) => false,
        (LevelSet::Two, Level::One) => false,
        _ => true,
    }
}
