//! The law of ranks: where one falls.
ghost use Rattle.model_router.specs.Routers.{Router};
ghost use Rattle.model_router.specs.Givens.{Given};
ghost use Rattle.model_router.specs.Events.{Event};
ghost use Rattle.model_router.specs.Steps.{step};
ghost use Rattle.step_laws.specs.Falls.{FallIsLetGo};

/// The rank of a key falls only in a second, and only where what was held is a purge with at most
/// one second left (ISO 10589 7.3.16.4); its LSP ID then counts as let go. So each step that isn't
/// a second leaves every rank or raises it, whatever was let go before.
pub fn rank_law()
    ensures { (given : Given) (r : Router) (event : Event)
        → FallIsLetGo event r (step given r event).router }
{}
