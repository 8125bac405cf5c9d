//! Laws of replies: what is sent is held after the step, and has the form that receivers accept.
ghost use Rattle.isis_base.specs.declared.level.Level.{Level};
ghost use Rattle.std.specs.Prelude.{◌≡◌, ℕ, Some};
ghost use Rattle.model_router.specs.Cells.{Cell};
ghost use Rattle.model_router.specs.Books.{Book, cell_at};
ghost use Rattle.model_router.specs.Routers.{Router, book_of};
ghost use Rattle.model_router.specs.Givens.{Given};
ghost use Rattle.model_router.specs.SnpLists.{snp_entry, held_keys, csnp_set};
ghost use Rattle.model_router.specs.Events.{Event};
ghost use Rattle.model_router.specs.Steps.{step};
ghost use Rattle.model_router.specs.Sorted.{RisesFrom, IsSorted};
ghost use Rattle.model_router.specs.Good.{IsGoodEvent, IsGoodRouter, IsTellable};
ghost use Rattle.model_router.specs.CsnpLaws.{CoversFrom, HasShortIds};
ghost use Rattle.model_router.specs.ReplyLaws.{IsReplyHeld, IsReplyExact, IsReplyTold, IsReplyFine};

/// What a reply says of LSPs is held after the step, with that rank or a newer one, unless the LSP
/// ID was let go.
pub fn step_reply()
    ensures { (given : Given) (r : Router) (event : Event) → IsSorted r
        → IsReplyHeld (step given r event).router (step given r event).reply }
{}

/// An LSP in a reply is held with its rank and content after the step.
pub fn step_exact()
    ensures { (given : Given) (r : Router) (event : Event) → IsSorted r
        → IsReplyExact (step given r event).router (step given r event).reply }
{}

/// A CSNP in a reply tells the keys in its range that are held after the step.
pub fn step_told()
    ensures { (given : Given) (r : Router) (event : Event) → IsSorted r → IsGoodRouter r
        → IsReplyTold (step given r event).router (step given r event).reply }
{}

/// What a reply says passes the tests of receiving.
pub fn step_fine()
    ensures { (given : Given) (r : Router) (event : Event)
        → IsSorted r → IsGoodRouter r → IsGoodEvent event
        → IsReplyFine (step given r event).reply }
{}

/// What an SNP says of whatever a good router holds has fields of the standard's sizes (ISO 10589
/// 9.10): every entry may be listed.
pub fn entries_tellable()
    ensures { (r : Router) (level : Level) (id : ℕ) (cell : Cell) → IsGoodRouter r
        → cell_at (book_of r level) id ≡ Some cell → IsTellable (snp_entry id cell) }
{}

/// A CSNP set covers all LSP IDs once, and lists the keys that are held, in order.
pub fn csnp_set_law()
    ensures { (level : Level) (book : Book) → RisesFrom 0 book.cells → HasShortIds book
        → CoversFrom level 0 (csnp_set level book) (held_keys book) }
{}
