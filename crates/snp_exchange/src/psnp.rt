//! What PSNPs on a circuit list.
ghost use Rattle.std.specs.Prelude.{◌≡◌, ◌-◌, ◌≤◌, ◌<◌, [], ◌∷◌, ◌++◌, List, length, OnOk, IfOk};
ghost use Rattle.model_router.specs.SnpTable.{SnpEntry};
ghost use Rattle.model_router.specs.SnpLists as model;
ghost use Rattle.model_router.specs.Good.{IsGoodBook};
ghost use Rattle.flag_sync.specs.Heard.{entry_of, entries_of};
ghost use Rattle.flag_sync.specs.Said.{said_owed};
ghost use Rattle.flag_sync.specs.BookStates.{book_of, IsCircuit};
ghost use Rattle.snp_exchange.specs.Pieces.{lists_of, listed};

use flag_sync::Book;
use isis_base::numbers::SNP_ENTRIES;
use isis_base::{LspEntry, OutOfMemory};
use std::alloc::Global;
use std::mem;

/// The entries that are owed on a circuit (ISO 10589 7.3.15.4), in order, 75 to a list. An empty
/// entry is listed with lifetime, number and checksum 0.
pub fn psnp_lists(
    alloc: Global,
    book: &Book,
    circuit: u8,
) -> Result<Vec<Vec<LspEntry>>, OutOfMemory>
    requires { IsCircuit circuit book.now.circuits }
    ensures lists { IfOk result (λ lists. lists_of lists.items ≡ model.pieces
        (length (said_owed (circuit - 1) book.now.store.entries book.now.rows))
        (entries_of (said_owed (circuit - 1) book.now.store.entries book.now.rows))) }
    ensures same { IfOk result (λ lists. IsGoodBook (book_of book.now)
        → lists_of lists.items ≡ model.pieces (length (model.owed (circuit - 1) (book_of book.now)))
        (model.owed (circuit - 1) (book_of book.now))) }
{
    let mut lists = Vec::new(alloc);
    let mut entries = Vec::new(alloc);
    let mut owed = book.said_owed(circuit);
    while let Some(said) = owed.next() {
        match add(&mut lists, &mut entries, alloc, said) {
            Ok(()) => {}
            Err(fault) => return Err(fault),
        }
    }
    finish(lists, entries)
}

/// The lists with the one that is filled, where that has an entry.
fn finish(
    mut lists: Vec<Vec<LspEntry>>,
    entries: Vec<LspEntry>,
) -> Result<Vec<Vec<LspEntry>>, OutOfMemory>
    ensures { IfOk result (λ all. lists_of all.items
        ≡ lists_of lists.items ++ listed (entries_of entries.items) []) }
{
    if entries.is_empty() {
        return Ok(lists);
    }
    lists.push(entries)?;
    Ok(lists)
}

/// Adds an entry, to a new list where the one that is filled has 75.
fn add(
    lists: &mut Vec<Vec<LspEntry>>,
    entries: &mut Vec<LspEntry>,
    alloc: Global,
    said: LspEntry,
) -> Result<(), OutOfMemory>
    requires few { length entries.old.items ≤ 75 }
    ensures more { OnOk result ((rest : List SnpEntry)
        → lists_of lists.new.items ++ listed (entries_of entries.new.items) rest
        ≡ lists_of lists.old.items ++ listed (entries_of entries.old.items) (entry_of said ∷ rest)) }
    ensures few { OnOk result (length entries.new.items ≤ 75) }
{
    if entries.len() < SNP_ENTRIES {
        entries.push(said)?;
        return Ok(());
    }
    let full = mem::replace(entries, Vec::new(alloc));
    lists.push(full)?;
    entries.push(said)?;
    Ok(())
}
