//! What follows of all routers: a function without a body, whose contract is the law.
ghost use Rattle.isis_base.specs.declared.level.Level.{Level};
ghost use Rattle.model_router.specs.Sorted.{RisesFrom};
ghost use Rattle.model_router.specs.Routers.{Router};
ghost use Rattle.model_router.specs.Givens.{Given};
ghost use Rattle.model_router.specs.Wanted.{wanted};

/// The LSP IDs that a level wants rise, as `renew` asks: fragments of the system's LSP, and then
/// those of pseudonodes in order of circuits (ISO 10589 7.3.4, 7.3.7, 7.3.8).
pub fn wanted_rises()
    ensures { (given : Given) (before r : Router) (level : Level)
        → RisesFrom 0 (wanted given before r level) }
{}
