//! Databases of a few LSPs.
use isis_base::{Key, LspId, NodeId, Octets, OutOfMemory};
use lsp_store::{Entry, Store};
use std::alloc::Global;

/// The octets of an LSP: 27 of a header, which is not looked at, and a body.
fn octets_of(alloc: Global, body: &[u8]) -> Result<Octets, OutOfMemory> {
    let mut octets = Octets::new(alloc);
    octets.extend(&[0; 27])?;
    octets.extend(body)?;
    Ok(octets)
}

/// The entry of an LSP of number 1: whether it is purged, its flags, and the octets behind the header.
pub fn entry_of(alloc: Global, purged: bool, flags: u8, body: &[u8]) -> Result<Entry, OutOfMemory> {
    let octets = octets_of(alloc, body)?;
    let key = Some(Key { number: 1, purged });
    Ok(Entry {
        key,
        checksum: 1,
        flags,
        left: 1200,
        octets,
    })
}

/// Puts such an entry under a node and a number.
pub fn put(
    alloc: Global,
    store: &mut Store,
    id: (NodeId, u8),
    purged: bool,
    flags: u8,
    body: &[u8],
) -> Result<(), OutOfMemory> {
    let entry = entry_of(alloc, purged, flags, body)?;
    let (node, number) = id;
    match store.put(LspId { node, number }, entry) {
        Ok(_before) => Ok(()),
        Err((_entry, _fault)) => Err(OutOfMemory),
    }
}
