//! What a level sends on a circuit: its CSNP set, its LSPs and its PSNPs, as datagrams.
ghost use Rattle.std.specs.Prelude.{◌≡◌, ◌≤◌, ◌<◌, ◌-◌, ◌++◌, ◌∷◌, [], ℕ, List, Vec, length, true, OnOk};
ghost use Rattle.std.specs.List.{AllByRecursion};
ghost use Rattle.std.specs.declared.alloc.Global.{Global};
ghost use Rattle.isis_base.specs.Identifiers.{lsp_number};
ghost use Rattle.model_router.specs.Cells.{Cell};
ghost use Rattle.model_router.specs.Datagrams as sent;
ghost use Rattle.model_router.specs.Good.{IsGoodBook};
ghost use Rattle.model_router.specs.Pulls.{due_lsps, srm_due};
ghost use Rattle.model_router.specs.SnpLists as model;
ghost use Rattle.flag_sync.specs.BookStates.{book_of, IsCircuit};
ghost use Rattle.flag_sync.specs.FlagRows.{cell_of};
ghost use Rattle.flag_sync.specs.Heard.{entries_of};
ghost use Rattle.flag_sync.specs.Walks.{row_due};
ghost use Rattle.model_router.specs.Sets.{has};
ghost use Rattle.router_sending.specs.Held.{IsPuttable};
ghost use Rattle.snp_exchange.specs.Pieces as pieces;
ghost use Rattle.router_core.specs.Sending.{octets_of, all_octets, MaySend};

use crate::datagrams::Datagrams;
use flag_sync::{Book, FlagRow};
use isis_base::numbers::SNP_ENTRIES;
use isis_base::{Level, LspEntry, OutOfMemory};
use lsp_store::Entry;
use router_sending::{Sender, csnp, lsp, psnp};
use snp_exchange::{EntryWalk, PieceWalk, csnp_pieces, psnp_lists};
use std::alloc::Global;

/// Adds the CSNP set of a book, piece by piece (ISO 10589 7.3.15.3).
pub(crate) fn put_csnps(
    out: &mut Datagrams,
    alloc: Global,
    sender: &Sender<'_>,
    level: Level,
    book: &Book,
) -> Result<(), OutOfMemory>
    requires here { 1 ≤ sender.now.circuit }
    requires good { IsGoodBook (book_of book.now) }
    ensures { OnOk result (out.new ≡ out.old
        ++ all_octets sender.now (model.csnp_set level (book_of book.now))) }
{
    let mut pieces = csnp_pieces(book);
    let mut room = match Vec::with_capacity(alloc, SNP_ENTRIES) {
        Ok(room) => room,
        Err(_) => return Err(OutOfMemory),
    };
    while let Some(piece) = pieces.next() {
        match put_piece(out, alloc, sender, level, piece, &mut room) {
            Ok(()) => {}
            Err(fault) => return Err(fault),
        }
    }
    Ok(())
}

/// Adds a CSNP. Its entries go through the room, which is used again.
fn put_piece(
    out: &mut Datagrams,
    alloc: Global,
    sender: &Sender<'_>,
    level: Level,
    piece: PieceWalk<'_>,
    room: &mut Vec<LspEntry>,
) -> Result<(), OutOfMemory>
    requires here { 1 ≤ sender.now.circuit }
    requires few { length piece.entries ≤ 75 }
    ensures { OnOk result (out.new ≡ out.old ++ octets_of sender.now (sent.Csnp level
        (lsp_number piece.entry.start) (lsp_number piece.entry.end)
        (entries_of piece.entry.entries)) ∷ []) }
{
    let (start, end) = (piece.start, piece.end);
    match fill(room, piece.entries) {
        Ok(()) => {}
        Err(fault) => return Err(fault),
    }
    let octets = csnp(alloc, sender, level, start, end, room.as_slice())?;
    out.push(octets)
}

/// The entries of a walk alone.
fn fill(room: &mut Vec<LspEntry>, mut walk: EntryWalk<'_>) -> Result<(), OutOfMemory>
    ensures { OnOk result (room.new.items ≡ walk.entry) }
{
    room.clear();
    while let Some(said) = walk.next() {
        match room.push(said) {
            Ok(()) => {}
            Err(_) => return Err(OutOfMemory),
        }
    }
    Ok(())
}

/// Adds the LSPs of a book that are due on the sender's circuit (ISO 10589 7.3.15.5).
pub(crate) fn put_lsps(
    out: &mut Datagrams,
    alloc: Global,
    sender: &Sender<'_>,
    level: Level,
    book: &Book,
) -> Result<(), OutOfMemory>
    requires here { IsCircuit sender.now.circuit book.now.circuits }
    requires few { sender.now.circuit ≤ 64 }
    requires may { MaySend (sender.now.circuit - 1) book.now.store.entries book.now.rows }
    ensures { OnOk result (out.new ≡ out.old ++ all_octets sender.now
        (due_lsps level (sender.now.circuit - 1) (book_of book.now).cells)) }
{
    if !book.may_flood(sender.circuit) {
        return Ok(());
    }
    let mut entries = book.store().pages().pairs();
    let mut rows = book.flag_pages().pairs();
    while let Some((_, entry)) = entries.next() {
        let Some((_, row)) = rows.next() else {
            return Ok(());
        };
        match put_due(out, alloc, sender, level, entry, row) {
            Ok(()) => {}
            Err(fault) => return Err(fault),
        }
    }
    Ok(())
}

/// Adds an LSP, where it is due on the sender's circuit.
fn put_due(
    out: &mut Datagrams,
    alloc: Global,
    sender: &Sender<'_>,
    level: Level,
    entry: &Entry,
    row: &FlagRow,
) -> Result<(), OutOfMemory>
    requires here { 1 ≤ sender.now.circuit }
    requires few { sender.now.circuit ≤ 64 }
    requires may { srm_due (sender.now.circuit - 1) (cell_of entry.now row.now) ≡ true
        → IsPuttable entry.now }
    ensures { OnOk result ((id : ℕ) (rest : List (ℕ × Cell)) → out.new
        ++ all_octets sender.now (due_lsps level (sender.now.circuit - 1) rest)
        ≡ out.old ++ all_octets sender.now (due_lsps level (sender.now.circuit - 1)
        ((id, cell_of entry.now row.now) ∷ rest))) }
{
    if is_due(row, sender.circuit - 1) {
        let octets = lsp(alloc, sender, level, entry)?;
        return out.push(octets);
    }
    Ok(())
}

/// Whether a row's SRM is due on a circuit (ISO 10589 7.3.15.5).
fn is_due(row: &FlagRow, place: u8) -> bool
    requires { place < 64 }
    ensures { result ≡ row_due place row.now }
{
    let [ones, twos, fours] = row.waits;
    has_bit(row.srm, place)
        && !has_bit(ones, place)
        && !has_bit(twos, place)
        && !has_bit(fours, place)
}

/// Whether the circuit at a place is in a set.
fn has_bit(set: u64, place: u8) -> bool
    requires { place < 64 }
    ensures { result ≡ has set place }
{
    (set >> place) & 1 == 1
}

/// Adds the PSNPs of a book on the sender's circuit (ISO 10589 7.3.15.4).
pub(crate) fn put_psnps(
    out: &mut Datagrams,
    alloc: Global,
    sender: &Sender<'_>,
    level: Level,
    book: &Book,
) -> Result<(), OutOfMemory>
    requires here { IsCircuit sender.now.circuit book.now.circuits }
    requires good { IsGoodBook (book_of book.now) }
    ensures { OnOk result (out.new ≡ out.old ++ all_octets sender.now (model.psnps level
        (model.pieces (length (model.owed (sender.now.circuit - 1) (book_of book.now)))
        (model.owed (sender.now.circuit - 1) (book_of book.now))))) }
{
    let lists = psnp_lists(alloc, book, sender.circuit)?;
    put_lists(out, alloc, sender, level, lists.as_slice())
}

/// Adds PSNPs.
fn put_lists(
    out: &mut Datagrams,
    alloc: Global,
    sender: &Sender<'_>,
    level: Level,
    lists: &[Vec<LspEntry>],
) -> Result<(), OutOfMemory>
    requires here { 1 ≤ sender.now.circuit }
    requires few { AllByRecursion
        (λ (list : Vec LspEntry Global). length list.items ≤ 75) lists.now }
    ensures { OnOk result (out.new ≡ out.old
        ++ all_octets sender.now (model.psnps level (pieces.lists_of lists.now))) }
{
    let mut left = lists;
    while let [entries, more @ ..] = left {
        match put_list(out, alloc, sender, level, entries) {
            Ok(()) => {}
            Err(fault) => return Err(fault),
        }
        left = more;
    }
    Ok(())
}

/// Adds a PSNP.
fn put_list(
    out: &mut Datagrams,
    alloc: Global,
    sender: &Sender<'_>,
    level: Level,
    entries: &[LspEntry],
) -> Result<(), OutOfMemory>
    requires here { 1 ≤ sender.now.circuit }
    requires few { length entries.now ≤ 75 }
    ensures { OnOk result (out.new ≡ out.old
        ++ octets_of sender.now (sent.Psnp level (entries_of entries.now)) ∷ []) }
{
    let octets = psnp(alloc, sender, level, entries)?;
    out.push(octets)
}
