//! A second of a level's entries.
ghost use Rattle.std.specs.Prelude.{◌≡◌, ℕ, nat_lt, true, false, List};
ghost use Rattle.isis_base.specs.Identifiers.{lsp_number};
ghost use Rattle.model_router.specs.Books.{rank_at};
ghost use Rattle.model_router.specs.Routers.{Issued};
ghost use Rattle.model_router.specs.Ageing as model;
ghost use Rattle.flag_sync.specs.BookStates.{book_of, SameCircuits};
ghost use Rattle.purge_ageing.specs.Ends.{state_of, end_id};

use crate::let_go::LetGo;
use flag_sync::Book;
use isis_base::LspId;

/// A second of a level's entries (ISO 10589 7.3.16.3, 7.3.16.4): at its end a live entry is purged,
/// and flooded on all open circuits; a purge that was there before is erased and let go; an empty
/// entry is erased (own). True exactly where a key changed. It takes no memory.
pub fn age(book: &mut Book, gone: &mut LetGo) -> bool
    ensures aged { (own : List (ℕ × Issued)) → state_of (book_of book.new) own gone.new
        ≡ model.age (state_of (book_of book.old) own gone.old) }
    ensures changed { result ≡ true
        → (n : ℕ) × (rank_at (book_of book.new) n ≡ rank_at (book_of book.old) n → ⊥) }
    ensures same { result ≡ false
        → (n : ℕ) → rank_at (book_of book.new) n ≡ rank_at (book_of book.old) n }
    ensures circuits { SameCircuits book.old book.new }
    ensures spare { book.new.store.spare ≡ book.old.store.spare }
{
    let mut over = book.age_first_over();
    let mut changed = false;
    while let Some(id) = over {
        changed |= end_entry(book, gone, id);
        over = book.next_over(id);
    }
    changed
}

/// The end of an entry: a live one is purged, any other one erased, and the LSP ID of a purge let
/// go. Whether there was a key.
fn end_entry(book: &mut Book, gone: &mut LetGo, id: LspId) -> bool
    ensures ended { (own : List (ℕ × Issued)) → state_of (book_of book.new) own gone.new
        ≡ end_id (state_of (book_of book.old) own gone.old) (lsp_number id) }
    ensures keyed { result ≡ nat_lt 0 (rank_at (book_of book.old) (lsp_number id)) }
    ensures circuits { SameCircuits book.old book.new }
    ensures spare { book.new.store.spare ≡ book.old.store.spare }
{
    match book.key(id) {
        None => {
            book.erase(id);
            false
        }
        Some(key) => {
            if key.purged {
                book.erase(id);
                gone.add(id);
            } else {
                book.purge(id);
            }
            true
        }
    }
}
