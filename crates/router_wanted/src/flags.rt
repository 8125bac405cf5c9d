//! The flags octet of own LSPs (ISO 10589 9.8).
ghost use Rattle.std.specs.Prelude.{◌≡◌, ℕ, ◌≤◌, List};
ghost use Rattle.isis_base.specs.declared.level.Level.TheVariants as one;
ghost use Rattle.isis_base.specs.declared.prefix.Prefix.{Prefix};
ghost use Rattle.model_router.specs.Both.{is_level};
ghost use Rattle.model_router.specs.Routers.{Circuit};
ghost use Rattle.model_router.specs.Wanted as model;
ghost use Rattle.router_wanted.specs.Lent.{config_of, given_of, router_of};

use crate::wants::Wants;
use isis_base::Level;
use isis_base::numbers::{ATTACHED, OVERLOAD};
use model_router::has_level;

/// The IS type: 1 of a router of level 1 alone, else 3.
pub(crate) fn is_type(base: &Wants<'_>) -> u8
    ensures value { result ≡ model.is_type (config_of base.now) }
    ensures small { result ≤ 3 }
{
    if has_level(base.levels, Level::Two) {
        3
    } else {
        1
    }
}

/// Number 0 of the system's LSP: overload where it is configured or entries are left out (ISO 10589
/// 7.3.19), and in level 1 of a router of both levels whether it is attached (7.2.9.2).
pub(crate) fn first_flags(base: &Wants<'_>, level: Level, attached: bool, whole: bool) -> u8
    ensures { (circuits : List Circuit) (leaks : List (Prefix × ℕ))
        → result ≡ model.first_flags (given_of leaks attached) (router_of base.now circuits)
        (router_of base.now circuits) level whole }
{
    let overload = if base.overload || !whole { OVERLOAD } else { 0 };
    let attached = if is_one(level) && has_level(base.levels, Level::Two) && attached {
        ATTACHED
    } else {
        0
    };
    is_type(base) + overload + attached
}

fn is_one(level: Level) -> bool
    ensures { result ≡ is_level level one.One }
{
    match level {
        Level::One => true,
        Level::Two => false,
    }
}
