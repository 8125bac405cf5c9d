//! The LSPs of some nodes as a database of their own (own).
ghost use Rattle.std.specs.Prelude.{◌≡◌, None, IfOk, OnOk};
ghost use Rattle.isis_base.specs.Keys.{entry_rank, rank};
ghost use Rattle.lsp_store.specs.Maps.{between, put};
ghost use Rattle.lsp_view.specs.Views.{number_of};
ghost use Rattle.router_core.specs.Asides.{put_all};
ghost use Rattle.router_core.specs.Plans.{IsTeller};

use flag_sync::{LspAnswer, LspHeard};
use isis_base::{LspId, NodeId, Octets, OutOfMemory};
use lsp_store::{Entry, Store, TryCopy};
use std::alloc::Global;

/// The LSPs that are held of a node are put in.
pub(crate) fn put_part(part: &mut Store, store: &Store, node: NodeId) -> Result<(), OutOfMemory>
    ensures { OnOk result (part.new.entries ≡ put_all part.old.entries
        (between (number_of node 0) (number_of node 255) store.now.entries)) }
{
    let (first, last) = (LspId { node, number: 0 }, LspId { node, number: 255 });
    for (id, entry) in store.range(first, last) {
        match put_copy(part, id, entry) {
            Ok(()) => {}
            Err(error) => return Err(error),
        }
    }
    Ok(())
}

/// Sets an LSP ID's entry to a copy.
fn put_copy(part: &mut Store, id: LspId, entry: &Entry) -> Result<(), OutOfMemory>
    ensures { OnOk result (part.new.entries ≡ put part.old.entries id entry.now) }
{
    let copy = match entry.try_copy() {
        Ok(copy) => copy,
        Err(error) => return Err(error),
    };
    put_in(part, id, copy)
}

/// Sets an LSP ID's entry.
pub(crate) fn put_in(store: &mut Store, id: LspId, entry: Entry) -> Result<(), OutOfMemory>
    ensures { OnOk result (store.new.entries ≡ put store.old.entries id entry) }
{
    match store.put(id, entry) {
        Ok(_) => Ok(()),
        Err(_) => Err(OutOfMemory),
    }
}

/// The entry that tells routes what an LSP does that met a row: as it was heard where it is stored, and else an empty one,
/// since what is kept is purged.
pub(crate) fn teller(
    alloc: Global,
    lsp: &LspHeard<'_>,
    row: LspAnswer,
) -> Result<Entry, OutOfMemory>
    ensures { IfOk result (IsTeller row lsp.now) }
{
    match row {
        LspAnswer::Stored => entry_heard(alloc, lsp),
        _ => Ok(no_entry(alloc)),
    }
}

/// An entry that tells nothing. It takes no memory.
pub(crate) fn no_entry(alloc: Global) -> Entry
    ensures { result.key ≡ None }
{
    Entry {
        key: None,
        checksum: 0,
        flags: 0,
        left: 0,
        octets: Octets::new(alloc),
    }
}

/// The entry of an LSP that is heard, as it was heard.
fn entry_heard(alloc: Global, lsp: &LspHeard<'_>) -> Result<Entry, OutOfMemory>
    ensures key { IfOk result (λ entry. rank entry.key ≡ entry_rank lsp.now.entry) }
    ensures flags { IfOk result (λ entry. entry.flags ≡ lsp.now.flags) }
    ensures octets { IfOk result (λ entry. entry.octets ≡ lsp.now.octets.now) }
{
    let mut octets = Octets::new(alloc);
    octets.extend(lsp.octets)?;
    Ok(Entry {
        key: lsp.entry.key(),
        checksum: lsp.entry.checksum,
        flags: lsp.flags,
        left: lsp.entry.lifetime,
        octets,
    })
}
