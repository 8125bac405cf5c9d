//! What routers that passed the tests have in common.
ghost use Rattle.std.specs.Prelude.{◌≡◌, ℕ, List, Some};
ghost use Rattle.model_router.specs.Places.{nth};
ghost use Rattle.forward_views.specs.Looks.{Look, root_of, AreAlike};
ghost use Rattle.walk_text.specs.Tests.{AreLooks, AreTested};

use crate::answer::facts_of;
use network_lab::Network;

/// Routers that passed the tests are alike, as forward_views wants it of routers along whose routes a packet arrives; and no two
/// routers have one node. It does nothing.
pub fn alike_facts(network: &Network)
    ensures alike { (looks : List Look) → AreLooks network.now.seen.routers looks → AreTested looks
        → AreAlike looks }
    ensures apart { (looks : List Look) (p q : ℕ) (a b : Look)
        → AreLooks network.now.seen.routers looks → nth looks p ≡ Some a → nth looks q ≡ Some b
        → root_of a ≡ root_of b → p ≡ q }
{
    facts_of(network);
    network.facts();
}
