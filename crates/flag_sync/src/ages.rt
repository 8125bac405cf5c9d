//! What is left of entries: a second of it, and the LSP IDs of those that have no seconds left.
ghost use Rattle.std.specs.Prelude.{◌≡◌};
ghost use Rattle.std.specs.Option.{option_map};
ghost use Rattle.isis_base.specs.Identifiers.{lsp_number};
ghost use Rattle.isis_base.specs.Keys.{rank};
ghost use Rattle.model_router.specs.Books.{rank_at};
ghost use Rattle.model_router.specs.Sorted.{RisesFrom};
ghost use Rattle.flag_sync.specs.Ages.{less_left, over_from, first_of, first_over};
ghost use Rattle.flag_sync.specs.BookStates.{book_of, SameCircuits};

use crate::book::Book;
use isis_base::{Key, LspId};
use lsp_store::{Entry, Pairs};

impl Book {
    /// The key that is held of an LSP ID; none where nothing or an empty entry is.
    pub fn key(&self, id: LspId) -> Option<Key>
        ensures { rank result ≡ rank_at (book_of self.now) (lsp_number id) }
    {
        self.known(id).key
    }

    /// A second less of what each entry has left, where that isn't 0 (ISO 10589 7.3.16.3), and the
    /// first LSP ID whose entry has none left then. It is one walk, and purges and erases nothing.
    pub fn age_first_over(&mut self) -> Option<LspId>
        ensures book { book_of self.new ≡ less_left (book_of self.old) }
        ensures first { option_map lsp_number result
            ≡ first_of (over_from 0 (book_of self.new).cells) }
        ensures rises { RisesFrom 0 (book_of self.old).cells }
        ensures rest { SameCircuits self.old self.new }
        ensures spare { self.new.store.spare ≡ self.old.store.spare }
    {
        self.store.age_first_over()
    }

    /// The first LSP ID from one on whose entry has no seconds left.
    pub fn next_over(&self, start: LspId) -> Option<LspId>
        ensures first { option_map lsp_number result
            ≡ first_of (over_from (lsp_number start) (book_of self.now).cells) }
        ensures rises { RisesFrom 0 (book_of self.now).cells }
    {
        first_in(self.store.pages().pairs_from(start))
    }
}

/// The LSP ID of the first entry that has no seconds left.
fn first_in(mut entries: Pairs<'_, Entry>) -> Option<LspId>
    ensures { result ≡ first_over entries.entry }
{
    while let Some((id, entry)) = entries.next() {
        if entry.left == 0 {
            return Some(id);
        }
    }
    None
}
