//! Laws of the CSNPs in a reply: which they are, what they list, and which LSP IDs they cover.
ghost use Rattle.isis_base.specs.declared.level.Level.{Level};
ghost use Rattle.model_router.specs.Routers.{Router};
ghost use Rattle.model_router.specs.Givens.{Given};
ghost use Rattle.model_router.specs.Events.{Event};
ghost use Rattle.model_router.specs.Steps.{step};
ghost use Rattle.model_router.specs.Sorted.{IsSorted};
ghost use Rattle.model_router.specs.Good.{IsGoodRouter};
ghost use Rattle.step_laws.specs.Listings.{ReplyListsExactly, AreNoneOrSet, AreNoneOrCovering};

/// A CSNP in a reply lists exactly the keys in its range that are held after the step: each once,
/// by LSP ID, with its checksum and its seconds left. The CSNPs of a level in one reply are none or
/// that level's CSNP set of the book after the step, and then their ranges cover all LSP IDs once,
/// in order.
pub fn csnp_law()
    ensures lists { (given : Given) (r : Router) (event : Event) → IsSorted r → IsGoodRouter r
        → ReplyListsExactly (step given r event).router (step given r event).reply }
    ensures set { (given : Given) (r : Router) (event : Event) (level : Level)
        → AreNoneOrSet (step given r event).router level (step given r event).reply }
    ensures covers { (given : Given) (r : Router) (event : Event) (level : Level)
        → IsSorted r → IsGoodRouter r → AreNoneOrCovering level (step given r event).reply }
{}
