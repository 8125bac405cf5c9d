//! Entries and books of one circuit, which the tests of books share.
ghost use Rattle.std.specs.Prelude.{◌≡◌, ◌≤◌, IfOk, length};

use flag_sync::Book;
use isis_base::{CircuitKind, Key, Octets, OutOfMemory};
use lsp_store::Entry;
use std::alloc::Global;

/// An entry of this key with 30 octets, of which so many seconds are left.
pub fn entry(alloc: Global, key: Key, checksum: u16, left: u16) -> Result<Entry, OutOfMemory>
    ensures { IfOk result (λ entry. 27 ≤ length entry.octets) }
{
    let mut octets = Octets::new(alloc);
    match octets.extend(&[1u8; 30]) {
        Ok(()) => {}
        Err(fault) => return Err(fault),
    }
    Ok(Entry {
        key: Some(key),
        checksum,
        flags: 3,
        left,
        octets,
    })
}

/// A book of one point-to-point circuit, with room for so many entries.
pub fn one_circuit(alloc: Global, room: usize) -> Result<Book, OutOfMemory>
    ensures { IfOk result (λ book. book.circuits ≡ 1) }
{
    let mut book = match Book::new(alloc, [CircuitKind::PointToPoint].as_slice()) {
        Ok(book) => book,
        Err(fault) => return Err(fault),
    };
    match book.reserve(room) {
        Ok(()) => Ok(book),
        Err(_) => Err(OutOfMemory),
    }
}
