//! The first router that fails a test.
ghost use Rattle.std.specs.Prelude.{◌≡◌, ◌<◌, ℕ, List, Some, IfOk, MatchBool, MatchOption};
ghost use Rattle.model_router.specs.Places.{nth};
ghost use Rattle.model_router.specs.Routers as model;
ghost use Rattle.router_routes.specs.Candidates.{AreRoutesOf};
ghost use Rattle.forward_views.specs.Looks.{Look, outlook};
ghost use Rattle.walk_text.specs.Firsts.{AllHave, IsFirstWithout};
ghost use Rattle.walk_text.specs.Tests.{AreLooks};

use isis_base::OutOfMemory;
use network_lab::Network;
use router_core::Router;

/// A test of one router (own).
pub(crate) trait Test {
    // What it needs of a router, and what a router is to have.
    ghost needs: { Self → model.Router → Type 0 };

    ghost has: { Self → Look → Type 0 };

    /// Whether a router has it.
    fn passes(&self, router: &Router) -> Result<bool, OutOfMemory>
        requires { needs self.now router.now }
        ensures { IfOk result (λ yes. (look : Look) → look.router ≡ router.now
            → AreRoutesOf (outlook look) look.routes
            → MatchBool yes (has self.now look) (has self.now look → ⊥)) };
}

/// The first router that fails a test; `None` where none does.
pub(crate) fn first_without<T: Test>(
    network: &Network,
    test: &T,
) -> Result<Option<usize>, OutOfMemory>
    requires { (i : ℕ) (r : model.Router) → nth network.now.seen.routers i ≡ Some r
        → T.needs test.now r }
    ensures { IfOk result (λ found. (looks : List Look)
        → AreLooks network.now.seen.routers looks
        → MatchOption found (AllHave (T.has test.now) looks)
        (IsFirstWithout (T.has test.now) looks)) }
{
    for place in 0..network.routers() {
        if !test.passes(network.router(place))? {
            return Ok(Some(place));
        }
    }
    Ok(None)
}
