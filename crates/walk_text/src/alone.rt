//! Whether a router runs level 1 alone.
ghost use Rattle.walk_text.specs.Tests.{IsAlone};

use crate::test::Test;
use isis_base::{LevelSet, OutOfMemory};
use router_core::Router;

/// That a router doesn't run level 2 (ISO 10589 6.2).
#[derive(Drop)]
pub(crate) struct Alone;

impl Test for Alone {
    ghost needs = { λ test r. Unit {0} };

    ghost has = { λ test look. IsAlone look };

    fn passes(&self, router: &Router) -> Result<bool, OutOfMemory> {
        match router.desk().levels() {
            LevelSet::One => Ok(true),
            LevelSet::Two | LevelSet::Both => Ok(false),
        }
    }
}
