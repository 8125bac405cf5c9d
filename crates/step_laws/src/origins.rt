//! The law of new live LSPs: where one comes from.
ghost use Rattle.model_router.specs.Routers.{Router};
ghost use Rattle.model_router.specs.Givens.{Given};
ghost use Rattle.model_router.specs.Events.{Event};
ghost use Rattle.model_router.specs.Steps.{step};
ghost use Rattle.step_laws.specs.Origins.{NewHasOrigin};

/// A live LSP that is held after a step, and wasn't held before it with its rank and content, was
/// issued in the step, or was taken in it and is of another system: of one's own system nothing is
/// stored live that another sent (ISO 10589 7.3.15.1, 7.3.16.1).
pub fn origin_law()
    ensures { (given : Given) (r : Router) (event : Event)
        → NewHasOrigin given event r (step given r event).router }
{}
