//! What a router asks of a book: of a circuit, of room, and of the row that an LSP will meet.
ghost use Rattle.std.specs.Prelude.{◌≡◌, ◌-◌, is_some};
ghost use Rattle.isis_base.specs.Identifiers.{lsp_number};
ghost use Rattle.model_router.specs.Sets.{has};
ghost use Rattle.model_router.specs.Sorted.{RisesFrom};
ghost use Rattle.model_router.specs.Books.{cell_at, is_full};
ghost use Rattle.model_router.specs.LspTable.{met};
ghost use Rattle.flag_sync.specs.Heard.{heard_of, answer_of};
ghost use Rattle.flag_sync.specs.BookStates.{book_of, IsCircuit};

use crate::bits::has_bit;
use crate::book::Book;
use crate::heard::{LspAnswer, LspHeard};
use crate::lsp_rows::{lsp_answer, lsp_row_of};
use isis_base::LspId;
use isis_base::numbers::ENTRY_LIMIT;
use model_router::Whose;

impl Book {
    /// Whether the circuit is open for the level.
    pub fn is_open(&self, circuit: u8) -> bool
        requires { IsCircuit circuit self.now.circuits }
        ensures { result ≡ has self.now.opened (circuit - 1) }
    {
        has_bit(self.opened, self.place(circuit))
    }

    /// Whether the circuit is point-to-point.
    pub fn is_point(&self, circuit: u8) -> bool
        requires { IsCircuit circuit self.now.circuits }
        ensures { result ≡ has self.now.points (circuit - 1) }
    {
        has_bit(self.points, self.place(circuit))
    }

    /// Whether 65,536 entries are held, so that a further LSP ID finds no room.
    pub fn is_full(&self) -> bool
        ensures { result ≡ is_full (book_of self.now) }
    {
        self.store.len() == ENTRY_LIMIT
    }

    /// Whether there is an entry of the LSP ID, be it an empty one.
    pub fn is_held(&self, id: LspId) -> bool
        ensures { result ≡ is_some (cell_at (book_of self.now) (lsp_number id)) }
    {
        self.store.get(id).is_some()
    }

    /// What `hear_lsp` would answer: the row that the LSP meets (ISO 10589 7.3.15.1, 7.3.16).
    pub fn would_meet(&self, lsp: &LspHeard<'_>, whose: Whose) -> LspAnswer
        ensures { result ≡ answer_of (met (book_of self.now) whose (heard_of lsp.now)) lsp.now }
    {
        let known = self.known(lsp.entry.id);
        let row = lsp_row_of(&known, lsp, whose);
        lsp_answer(row, lsp)
    }

    /// A book's entries are by LSP ID. It does nothing.
    pub fn order_law(&self)
        ensures { RisesFrom 0 (book_of self.now).cells }
    {
        let _opened = self.opened;
    }
}
