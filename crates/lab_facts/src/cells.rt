//! The walk over a book's entries with their flags.
ghost use Rattle.std.specs.Prelude.{◌≡◌, ◌≤◌, length};
ghost use Rattle.flag_sync.specs.BookStates.{book_of};

use flag_sync::{Book, FlagRow};
use isis_base::LspId;
use lsp_store::{Entry, Pairs};
use std::marker::Model;

/// The entries of a book with their flags, in order. Contracts see the cells that are left.
#[derive(Drop)]
pub(crate) struct Cells<'a> {
    entries: Pairs<'a, Entry>,
    rows: Pairs<'a, FlagRow>,
}

impl<'a> Model for Cells<'a> {
    ghost use Rattle.std.specs.Prelude.{List, ℕ};
    ghost use Rattle.model_router.specs.Cells.{Cell};
    ghost use Rattle.flag_sync.specs.BookStates.{cells_of};

    ghost Value = { List (ℕ × Cell) };

    ghost view = { λ c. cells_of c.entries c.rows };
}

impl<'a> Cells<'a> {
    /// Those of a book.
    pub(crate) fn new(book: &'a Book) -> Cells<'a>
        ensures cells { result ≡ (book_of book.now).cells }
        ensures few { length result ≤ 65536 }
    {
        let _len = book.store().len();
        let entries = book.store().pages().pairs();
        let rows = book.flag_pages().pairs();
        Cells { entries, rows }
    }
}

impl<'a> Iterator for Cells<'a> {
    ghost use Rattle.std.specs.Iterator.{YieldsFirstBy, item_count};
    ghost use Rattle.lab_facts.specs.Tallies.{cell_item};

    type Item = (LspId, &'a Entry, &'a FlagRow);

    ghost next_gives = { YieldsFirstBy cell_item (λ rest. rest) };

    ghost remaining = { item_count (λ rest. rest) };

    fn next(&mut self) -> Option<(LspId, &'a Entry, &'a FlagRow)> {
        let Some((id, entry)) = self.entries.next() else {
            return None;
        };
        let Some((_, row)) = self.rows.next() else {
            return None;
        };
        Some((id, entry, row))
    }
}
