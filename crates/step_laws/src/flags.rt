//! Laws of where flags stand and what they wait: at the start, and kept by every step.
ghost use Rattle.std.specs.Prelude.{◌≡◌, ℕ, ◌-◌, ◌==◌, List, if◌then◌else◌};
ghost use Rattle.model_router.specs.Waits.{Waits, wait, no_waits, due_at, five_at, fallen};
ghost use Rattle.model_router.specs.Configs.{Config};
ghost use Rattle.model_router.specs.Routers.{Circuit, Router};
ghost use Rattle.model_router.specs.Givens.{Given};
ghost use Rattle.model_router.specs.Events.{Event};
ghost use Rattle.model_router.specs.Steps.{step};
ghost use Rattle.model_router.specs.Starts.{start};
ghost use Rattle.step_laws.specs.Flags.{FlagsAreOpen, WaitsAreFlagged};

/// At a router's start SRM and SSN stand on open circuits alone.
pub fn open_flags_start()
    ensures { (config : Config) (boot : ℕ) (circuits : List Circuit)
        → FlagsAreOpen (start config boot circuits) }
{}

/// Where SRM and SSN stand on open circuits alone, they still do after a step, whatever is given
/// and whatever happens: no circuit that closes keeps a flag, and none gets one while it is closed.
pub fn open_flags_step()
    ensures { (given : Given) (r : Router) (event : Event)
        → FlagsAreOpen r → FlagsAreOpen (step given r event).router }
{}

/// At a router's start what waits has SRM, and waits five seconds at most.
pub fn flagged_waits_start()
    ensures { (config : Config) (boot : ℕ) (circuits : List Circuit)
        → WaitsAreFlagged (start config boot circuits) }
{}

/// Where what waits has SRM, and waits five seconds at most, that is so after a step, whatever is
/// given and whatever happens: a flag that is cleared, or set anew, waits no more. With the law
/// above, what waits waits on an open circuit.
pub fn flagged_waits_step()
    ensures { (given : Given) (r : Router) (event : Event)
        → WaitsAreFlagged r → WaitsAreFlagged (step given r event).router }
{}

/// The seconds that a circuit's flag waits are exactly what the words that made them say.
pub fn wait_laws()
    ensures none { (q : ℕ) → wait no_waits q ≡ 0 }
    ensures due { (waits : Waits) (place q : ℕ)
        → wait (due_at waits place) q ≡ (if place == q then 0 else wait waits q) }
    ensures five { (waits : Waits) (place q : ℕ)
        → wait (five_at waits place) q ≡ (if place == q then 5 else wait waits q) }
    ensures fallen { (waits : Waits) (q : ℕ) → wait (fallen waits) q ≡ wait waits q - 1 }
{}
