//! Seconds of three entries, and a list past its most, of purge_ageing.
use crate::entries::{entry, one_circuit};
use flag_sync::{Book, Whose};
use isis_base::{Key, LspEntry, LspId, OutOfMemory};
use purge_ageing::{LetGo, age};
use std::alloc::Global;
use std::test::Fail;

/// A live entry of the greatest number, which is over after a second.
const LAST: u64 = 1;

/// A live entry with 1,200 seconds left.
const LONG: u64 = 2;

/// An empty entry.
const EMPTY: u64 = 3;

/// Installs a live entry with so many seconds left.
fn install(book: &mut Book, alloc: Global, id: u64, left: u16) -> Result<(), OutOfMemory> {
    let key = Key {
        number: 4_294_967_295,
        purged: false,
    };
    let entry = entry(alloc, key, 5, left)?;
    match book.install(LspId::from_number(id), entry) {
        Ok(()) => Ok(()),
        Err(_) => Err(OutOfMemory),
    }
}

/// A book of one circuit with an empty entry and room for two more.
fn asked(alloc: Global) -> Result<Book, OutOfMemory> {
    let mut book = match one_circuit(alloc, 3) {
        Ok(book) => book,
        Err(fault) => return Err(fault),
    };
    let asked = LspEntry {
        lifetime: 9,
        id: LspId::from_number(EMPTY),
        number: 1,
        checksum: 1,
    };
    if book.spare() > 0 {
        book.hear_entry(1, &asked, Whose::Other);
    }
    Ok(book)
}

/// What an LSP ID's entry has left; 0 where there is none.
fn left_of(book: &Book, id: u64) -> u16 {
    match book.store().get(LspId::from_number(id)) {
        Some(entry) => entry.left,
        None => 0,
    }
}

/// Whether a purge is held.
fn is_purged(book: &Book, id: u64) -> bool {
    match book.key(LspId::from_number(id)) {
        Some(key) => key.purged,
        None => false,
    }
}

/// The first second after which something isn't as it should be. The first entry is a purge with 60 seconds from the first
/// second on, and let go at the 61st; the empty one goes at the 60th.
fn wrong_second(book: &mut Book, gone: &mut LetGo) -> Option<u16> {
    for second in 1..62u16 {
        let changed = age(book, gone);
        let last = second == 61;
        let right = changed == (second == 1 || last)
            && left_of(book, LAST) == 61 - second
            && is_purged(book, LAST) != last
            && left_of(book, LONG) == 1_200 - second
            && left_of(book, EMPTY) == if second < 60 { 60 - second } else { 0 }
            && gone.has(LspId::from_number(LAST)) == last
            && !gone.has(LspId::from_number(EMPTY));
        if !right {
            return Some(second);
        }
    }
    None
}

/// Whether the seconds of the three entries go as they should.
fn go_as_they_should(alloc: Global, book: &mut Book) -> Result<bool, OutOfMemory> {
    install(book, alloc, LAST, 1)?;
    install(book, alloc, LONG, 1_200)?;
    let mut gone = LetGo::new(alloc)?;
    let is_right = wrong_second(book, &mut gone).is_none();
    Ok(is_right && gone.list() == Some([LspId::from_number(LAST)].as_slice()))
}

#[test]
fn seconds(rt: HostRuntime) -> Result<(), Fail> {
    let mut book = asked(rt.alloc())?;
    assert!(rt; go_as_they_should(rt.alloc(), &mut book)?);
    Ok(())
}

/// The first of 4,096 LSP IDs, the greatest first and each twice, that isn't listed once it is added.
fn wrong_addition(gone: &mut LetGo) -> Option<u64> {
    for n in 0..4_096u64 {
        let id = LspId::from_number(4_096 - n);
        if gone.has(id) {
            return Some(n);
        }
        gone.add(id);
        gone.add(id);
        let count = match gone.list() {
            Some(ids) => ids.len() as u64,
            None => 0,
        };
        if !gone.has(id) || count != n + 1 {
            return Some(n);
        }
    }
    None
}

/// Whether a copy has the greatest of the LSP IDs and not a further one, which is told of once it is added.
fn is_told_past_its_most(gone: &mut LetGo) -> Result<bool, OutOfMemory> {
    let copy = gone.copy()?;
    gone.add(LspId::from_number(5_000));
    let is_past = gone.list().is_none() && gone.has(LspId::from_number(6_000));
    Ok(is_past && copy.has(LspId::from_number(4_096)) && !copy.has(LspId::from_number(5_000)))
}

#[test]
fn additions(rt: HostRuntime) -> Result<(), Fail> {
    let mut gone = LetGo::new(rt.alloc())?;
    assert_eq!(rt; wrong_addition(&mut gone), None);
    assert!(rt; is_told_past_its_most(&mut gone)?);
    assert!(rt; gone.copy()?.list().is_none());
    Ok(())
}
