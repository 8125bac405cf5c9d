//! What follows for all books: a function without a body, whose contract is the law.
ghost use Rattle.std.specs.Prelude.{◌≡◌, ℕ, true, false};
ghost use Rattle.model_router.specs.Sets.{has};
ghost use Rattle.model_router.specs.Books.{Book};
ghost use Rattle.model_router.specs.Openings.{mark_all, open_up};
ghost use Rattle.flag_sync.specs.Circuits.{open_or_close};

/// On a point-to-point circuit, `set_open` and then `mark_all` is its opening by the definitions
/// (ISO 10589 7.3.17).
pub fn opening_law()
    ensures { (book : Book) (place : ℕ) → has book.p2p place ≡ true
        → mark_all (open_or_close book place true) place ≡ open_up book place }
{}
