//! Entries that are kept of an LSP, and purges, which are kept as headers.
ghost use Rattle.std.specs.Prelude.{◌≡◌, ◌<◌, ◌≤◌, length, IfOk, Some};
ghost use Rattle.isis_base.specs.Keys.{rank};
ghost use Rattle.model_router.specs.Cells.{header_of, kept, purge_of};
ghost use Rattle.flag_sync.specs.declared.flag_row.FlagRow.{FlagRow as Row};
ghost use Rattle.flag_sync.specs.FlagRows.{cell_of};
ghost use Rattle.flag_sync.specs.Entries.{with_row, key_purged};
ghost use Rattle.flag_sync.specs.Heard.{heard_of};

use crate::heard::LspHeard;
use isis_base::numbers::LSP_HEADER;
use isis_base::{Key, Octets, OutOfMemory};
use lsp_store::{Change, Entry};
use std::alloc::Global;

/// The seconds that a purge and an empty entry are kept (ISO 10589 7.3.16.4, ZeroAgeLifetime).
pub(crate) const PURGE_SECONDS: u16 = 60;

/// An entry becomes its purge: its header, with 60 seconds left.
#[derive(Drop)]
pub(crate) struct Purge;

impl Change<Entry> for Purge {
    ghost use Rattle.flag_sync.specs.Entries.{purged_entry};

    ghost changed = { λ _ entry. purged_entry entry };

    fn change(&self, entry: &mut Entry) {
        if entry.octets.len() < LSP_HEADER {
            return;
        }
        entry.key = purge_key(entry.key);
        entry.checksum = 0;
        entry.left = PURGE_SECONDS;
        make_header(&mut entry.octets);
    }
}

/// The entry of an LSP that is kept as it was heard; of a purge its header alone, with 60 seconds
/// left.
pub(crate) fn heard_entry(alloc: Global, lsp: &LspHeard<'_>) -> Result<Entry, OutOfMemory>
    requires number { 0 < lsp.now.entry.number }
    requires octets { 27 ≤ length lsp.now.octets.now }
    ensures cell { IfOk result (λ entry. (row : Row)
        → cell_of entry row ≡ with_row (kept (heard_of lsp.now)) row) }
    ensures headed { IfOk result (λ entry. 27 ≤ length entry.octets) }
{
    if lsp.entry.lifetime == 0 {
        return purge_entry(alloc, lsp);
    }
    let mut octets = Octets::new(alloc);
    octets.extend(lsp.octets)?;
    Ok(Entry {
        key: lsp.entry.key(),
        checksum: lsp.entry.checksum,
        flags: lsp.flags,
        left: lsp.entry.lifetime,
        octets,
    })
}

/// The entry of the purge of an LSP.
pub(crate) fn purge_entry(alloc: Global, lsp: &LspHeard<'_>) -> Result<Entry, OutOfMemory>
    requires number { 0 < lsp.now.entry.number }
    requires octets { 27 ≤ length lsp.now.octets.now }
    ensures cell { IfOk result (λ entry. (row : Row)
        → cell_of entry row
        ≡ with_row (purge_of lsp.now.entry.number lsp.now.flags lsp.now.octets.now) row) }
    ensures headed { IfOk result (λ entry. 27 ≤ length entry.octets) }
{
    let octets = header(alloc, lsp.octets)?;
    let key = Some(Key {
        number: lsp.entry.number,
        purged: true,
    });
    Ok(Entry {
        key,
        checksum: 0,
        flags: lsp.flags,
        left: PURGE_SECONDS,
        octets,
    })
}

/// The header of a purge that is made of an LSP.
fn header(alloc: Global, lsp: &[u8]) -> Result<Octets, OutOfMemory>
    requires { 27 ≤ length lsp.now }
    ensures header { IfOk result (λ octets. octets ≡ header_of lsp.now) }
    ensures len { IfOk result (λ octets. 27 ≤ length octets) }
{
    let mut octets = Octets::new(alloc);
    match octets.extend(&lsp[..LSP_HEADER]) {
        Ok(()) => {}
        Err(fault) => return Err(fault),
    }
    make_header(&mut octets);
    Ok(octets)
}

/// The octets of an LSP become those of its purge's header: PDU length 27, lifetime 0 and checksum
/// 0.
fn make_header(octets: &mut Octets)
    requires { 27 ≤ length octets.old }
    ensures header { octets.new ≡ header_of octets.old }
    ensures len { 27 ≤ length octets.new }
{
    octets.truncate(LSP_HEADER);
    write_header(octets.as_mut_slice());
}

/// The fields of a purge's header.
fn write_header(octets: &mut [u8])
    requires { length octets.old ≡ 27 }
    ensures { octets.new ≡ header_of octets.old }
{
    octets[8] = 0;
    octets[9] = 27;
    octets[10] = 0;
    octets[11] = 0;
    octets[24] = 0;
    octets[25] = 0;
}

/// The key of the purge.
fn purge_key(key: Option<Key>) -> Option<Key>
    ensures { result ≡ key_purged key }
{
    match key {
        Some(key) => Some(Key {
            number: key.number,
            purged: true,
        }),
        None => None,
    }
}
