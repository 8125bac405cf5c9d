//! Entries and rows of flags side by side: both of an LSP ID put and taken out together.
ghost use Rattle.std.specs.Prelude.{◌≡◌, ◌≤◌, ◌<◌, ◌⊎◌, length, None, IfOk, IfErr, OnOk, OnErr, IsSome};
ghost use Rattle.isis_base.specs.Identifiers.{lsp_number};
ghost use Rattle.lsp_store.specs.Maps.{find, put, erase};
ghost use Rattle.lsp_store.specs.Databases.{PutCause, with_entry, without_entry};
ghost use Rattle.flag_sync.specs.BookStates.{AreBeside};

use crate::flag_row::FlagRow;
use crate::flags::Flags;
use isis_base::LspId;
use isis_base::numbers::ENTRY_LIMIT;
use lsp_store::{Entry, Store, StoreFault};

/// Sets an LSP ID's entry and its row. At a fault nothing is changed but that room for rows may be
/// taken.
pub(crate) fn put_both(
    store: &mut Store,
    flags: &mut Flags,
    id: LspId,
    entry: Entry,
    row: FlagRow,
) -> Result<(), (Entry, StoreFault)>
    requires beside { AreBeside store.old.entries flags.old.entries }
    requires room { store.old.spare ≤ flags.old.spare }
    ensures store { OnOk result (store.new ≡ with_entry store.old id entry) }
    ensures rows { OnOk result (flags.new.entries ≡ put flags.old.entries id row) }
    ensures same_store { OnErr result (store.new ≡ store.old) }
    ensures same_rows { OnErr result (flags.new.entries ≡ flags.old.entries) }
    ensures room { store.new.spare ≤ flags.new.spare }
    ensures back { IfErr result (λ back. back.0 ≡ entry) }
    ensures cause { IfErr result (λ back. PutCause store.old (lsp_number id) back.1) }
    ensures full { find store.old.entries (lsp_number id) ≡ None
        → 65536 ≤ length store.old.entries → IfOk result (λ _. ⊥) }
{
    match take_room(store, flags, id) {
        Ok(()) => {}
        Err(fault) => return Err((entry, fault)),
    }
    match store.put(id, entry) {
        Ok(_before) => {}
        Err(back) => return Err(back),
    }
    let _before = flags.put(id, row).unwrap();
    Ok(())
}

/// Sees that an LSP ID's row can be put without memory.
fn take_room(store: &Store, flags: &mut Flags, id: LspId) -> Result<(), StoreFault>
    requires beside { AreBeside store.now.entries flags.old.entries }
    requires room { store.now.spare ≤ flags.old.spare }
    ensures same { flags.new.entries ≡ flags.old.entries }
    ensures room { store.now.spare ≤ flags.new.spare }
    ensures ready { OnOk result (IsSome (find flags.old.entries (lsp_number id))
        ⊎ (0 < flags.new.spare)) }
    ensures cause { IfErr result (PutCause store.now (lsp_number id)) }
    ensures full { find store.now.entries (lsp_number id) ≡ None
        → 65536 ≤ length store.now.entries → IfOk result (λ _. ⊥) }
{
    match store.get(id) {
        Some(_) => return Ok(()),
        None => {}
    }
    if store.len() >= ENTRY_LIMIT {
        return Err(StoreFault::Full);
    }
    if flags.spare() > 0 {
        return Ok(());
    }
    match flags.reserve(1) {
        Ok(()) => Ok(()),
        Err(_) => Err(StoreFault::OutOfMemory),
    }
}
