//! The CSNP set of a book, as a list.
ghost use Rattle.std.specs.Prelude.{◌≡◌, ◌++◌, [], ◌∷◌, suc, length, OnOk, IfOk};
ghost use Rattle.isis_base.specs.declared.level.Level.{Level};
ghost use Rattle.model_router.specs.SnpLists as model;
ghost use Rattle.model_router.specs.Good.{IsGoodBook};
ghost use Rattle.flag_sync.specs.Heard.{entries_of};
ghost use Rattle.flag_sync.specs.Said.{said_keys};
ghost use Rattle.flag_sync.specs.BookStates.{book_of};
ghost use Rattle.snp_exchange.specs.Pieces.{sent};

use crate::piece_walk::{EntryWalk, PieceWalk};
use crate::pieces::csnp_pieces;
use flag_sync::Book;
use isis_base::{List, LspEntry, LspId, OutOfMemory};
use std::alloc::Global;

/// The entries of a sequence number PDU.
pub type Entries = List<LspEntry>;

/// A CSNP of a set: the first and the last LSP ID of its range, and what is said in it (ISO 10589
/// 9.10).
#[derive(Drop, Debug)]
pub struct Piece {
    pub start: LspId,
    pub end: LspId,
    pub entries: Entries,
}

/// The CSNP set of a book (ISO 10589 7.3.15.3): the keys that are held by LSP ID, purges among
/// them, 75 to a piece. The first piece begins at LSP ID 0, each other one behind the end of the one
/// before it; a piece ends at its last entry, the last one at all ones.
pub fn csnp_set(alloc: Global, book: &Book) -> Result<Vec<Piece>, OutOfMemory>
    ensures set { IfOk result (λ set. (level : Level) → sent level set.items
        ≡ model.csnps level 0 (model.pieces (suc (length (said_keys book.now.store.entries)))
        (entries_of (said_keys book.now.store.entries)))) }
    ensures same { IfOk result (λ set. IsGoodBook (book_of book.now)
        → (level : Level) → sent level set.items ≡ model.csnp_set level (book_of book.now)) }
{
    let mut set = Vec::new(alloc);
    let mut pieces = csnp_pieces(book);
    while let Some(piece) = pieces.next() {
        match add(&mut set, alloc, piece) {
            Ok(()) => {}
            Err(fault) => return Err(fault),
        }
    }
    Ok(set)
}

/// Adds a piece with the entries of its walk.
fn add(set: &mut Vec<Piece>, alloc: Global, piece: PieceWalk<'_>) -> Result<(), OutOfMemory>
    ensures { OnOk result (set.new.items ≡ set.old.items
        ++ record { start = piece.entry.start; end = piece.entry.end; entries = piece.entry.entries }
        ∷ []) }
{
    let (start, end) = (piece.start, piece.end);
    let entries = match entries_in(alloc, piece.entries) {
        Ok(entries) => entries,
        Err(fault) => return Err(fault),
    };
    set.push(Piece {
        start,
        end,
        entries,
    })?;
    Ok(())
}

/// The entries of a walk, as a list.
fn entries_in(alloc: Global, mut walk: EntryWalk<'_>) -> Result<Entries, OutOfMemory>
    ensures { IfOk result (λ entries. entries ≡ walk.entry) }
{
    let mut entries = match Entries::with_room(alloc, walk.count) {
        Ok(entries) => entries,
        Err(fault) => return Err(fault),
    };
    while let Some(said) = walk.next() {
        match entries.push(said) {
            Ok(()) => {}
            Err(fault) => return Err(fault),
        }
    }
    Ok(entries)
}
