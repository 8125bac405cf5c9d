//! The pieces of a CSNP set, one after another, without memory.
ghost use Rattle.std.specs.Prelude.{◌≡◌, ◌<◌, ◌≤◌, ◌+◌, ◌++◌, suc, length, take};
ghost use Rattle.isis_base.specs.declared.level.Level.{Level};
ghost use Rattle.isis_base.specs.Identifiers.{lsp_number};
ghost use Rattle.model_router.specs.SnpLists as model;
ghost use Rattle.model_router.specs.Good.{IsGoodBook};
ghost use Rattle.flag_sync.specs.Heard.{entries_of};
ghost use Rattle.flag_sync.specs.Said.{said_keys};
ghost use Rattle.flag_sync.specs.BookStates.{book_of};
ghost use Rattle.snp_exchange.specs.PieceLists.{said_sent, first_said};

use crate::piece_walk::{EntryWalk, PieceWalk};
use flag_sync::{Book, Keys};
use isis_base::LspId;
use isis_base::numbers::SNP_ENTRIES;
use std::marker::Model;

/// The CSNP set of a book (ISO 10589 7.3.15.3), piece by piece: the keys that are held by LSP ID,
/// purges among them, 75 to a piece. The first piece begins at LSP ID 0, each other one behind the
/// end of the one before it; a piece ends at its last entry, the last one at all ones. It takes no
/// memory.
pub fn csnp_pieces(book: &Book) -> CsnpPieces<'_>
    ensures set { (level : Level) → said_sent level result
        ≡ model.csnps level 0 (model.pieces (suc (length (said_keys book.now.store.entries)))
        (entries_of (said_keys book.now.store.entries))) }
    ensures same { IsGoodBook (book_of book.now)
        → (level : Level) → said_sent level result ≡ model.csnp_set level (book_of book.now) }
{
    CsnpPieces {
        keys: book.keys(),
        start: LspId::from_number(0),
        done: false,
    }
}

/// The pieces of a CSNP set, in order. Contracts see those that are left.
#[derive(Drop)]
pub struct CsnpPieces<'a> {
    keys: Keys<'a>,
    start: LspId,
    done: bool,
}

impl<'a> Model for CsnpPieces<'a> {
    ghost use Rattle.std.specs.Prelude.{List};
    ghost use Rattle.isis_base.specs.Identifiers.{lsp_number};
    ghost use Rattle.flag_sync.specs.Said.{SaidRise};
    ghost use Rattle.snp_exchange.specs.PieceLists.{PieceSaid, left_pieces};

    ghost Value = { List PieceSaid };

    ghost view = { λ p. left_pieces p.done (lsp_number p.start) p.keys };

    ghost invariant = { λ p. SaidRise 0 p.keys };
}

impl<'a> Iterator for CsnpPieces<'a> {
    ghost use Rattle.std.specs.Iterator.{YieldsFirstBy, item_count};
    ghost use Rattle.snp_exchange.specs.PieceLists.{piece_said};

    type Item = PieceWalk<'a>;

    ghost next_gives = { YieldsFirstBy piece_said (λ rest. rest) };

    ghost remaining = { item_count (λ rest. rest) };

    fn next(&mut self) -> Option<PieceWalk<'a>> {
        if self.done {
            return None;
        }
        let (start, keys) = (self.start, self.keys.again());
        let passed = pass_piece(&mut self.keys);
        let count = passed.count;
        let entries = EntryWalk { keys, count };
        match first_left(&self.keys) {
            Some(next) => {
                let end = passed.last;
                self.start = behind(end, next);
                Some(PieceWalk {
                    start,
                    end,
                    entries,
                })
            }
            None => {
                let end = LspId::from_number(u64::MAX);
                self.done = true;
                Some(PieceWalk {
                    start,
                    end,
                    entries,
                })
            }
        }
    }
}

/// How many keys were passed, and the LSP ID of the last of them.
#[derive(Clone, Copy)]
struct Passed {
    count: usize,
    last: LspId,
}

/// Passes the keys of one piece.
fn pass_piece(keys: &mut Keys<'_>) -> Passed
    ensures split { take result.count keys.old ++ keys.new ≡ keys.old }
    ensures count { length (take result.count keys.old) ≡ result.count }
    ensures few { result.count ≤ 75 }
    ensures full { 0 < length keys.new → result.count ≡ 75 }
    ensures last { 0 < result.count
        → model.last_id (entries_of (take result.count keys.old)) ≡ lsp_number result.last }
{
    let mut count = 0usize;
    let mut last = LspId::from_number(0);
    while count < SNP_ENTRIES {
        match keys.next() {
            Some(said) => last = said.id,
            None => return Passed { count, last },
        }
        count += 1;
    }
    Passed { count, last }
}

/// The LSP ID of the first key that is left.
fn first_left(keys: &Keys<'_>) -> Option<LspId>
    ensures { result ≡ first_said keys.now }
{
    match keys.again().next() {
        Some(said) => Some(said.id),
        None => None,
    }
}

/// The LSP ID behind one.
fn behind(id: LspId, next: LspId) -> LspId
    requires { lsp_number id < lsp_number next }
    ensures { lsp_number result ≡ lsp_number id + 1 }
{
    let (number, most) = (id.to_number(), next.to_number());
    prove!(number < most);
    LspId::from_number(number + 1)
}
