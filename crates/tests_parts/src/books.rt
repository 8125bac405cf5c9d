//! Each call of a book of flag_sync once, and what a book holds as a text.
ghost use Rattle.std.specs.Prelude.{◌≡◌, IfOk};

use crate::entries::entry;
use flag_sync::{Book, Whose};
use isis_base::{CircuitKind, Key, LspEntry, LspId, OutOfMemory};
use lsp_store::StoreFault;
use std::alloc::{AllocError, Global};
use std::test::Fail;

/// The LSP ID that the tests speak of.
const ID: u64 = 7;

/// What is said of that LSP ID.
pub fn said(number: u32, lifetime: u16, checksum: u16) -> LspEntry {
    LspEntry {
        lifetime,
        id: LspId::from_number(ID),
        number,
        checksum,
    }
}

/// A book of three open circuits, of which the third is a LAN.
pub fn bare(alloc: Global) -> Result<Book, OutOfMemory>
    ensures { IfOk result (λ book. book.circuits ≡ 3) }
{
    let kinds = [
        CircuitKind::PointToPoint,
        CircuitKind::PointToPoint,
        CircuitKind::Lan,
    ];
    let mut book = match Book::new(alloc, kinds.as_slice()) {
        Ok(book) => book,
        Err(fault) => return Err(fault),
    };
    book.set_open(1, true);
    book.set_open(2, true);
    book.set_open(3, true);
    match book.reserve(4) {
        Ok(()) => {}
        Err(_) => return Err(OutOfMemory),
    }
    Ok(book)
}

/// Installs at an LSP ID an entry of number 2 and checksum 5, with 900 seconds left.
pub fn install(book: &mut Book, alloc: Global, id: LspId) -> Result<(), StoreFault>
    ensures { book.old.circuits ≡ 3 → book.new.circuits ≡ 3 }
{
    let key = Key {
        number: 2,
        purged: false,
    };
    let entry = match entry(alloc, key, 5, 900) {
        Ok(entry) => entry,
        Err(OutOfMemory) => return Err(StoreFault::OutOfMemory),
    };
    match book.install(id, entry) {
        Ok(()) => Ok(()),
        Err((_, fault)) => Err(fault),
    }
}

/// The same with the entry, SRM on circuits 1 and 3, of which it waits on 1, and SSN on circuits 2 and 3.
pub fn held(alloc: Global) -> Result<Book, OutOfMemory>
    ensures { IfOk result (λ book. book.circuits ≡ 3) }
{
    let mut book = match bare(alloc) {
        Ok(book) => book,
        Err(fault) => return Err(fault),
    };
    match install(&mut book, alloc, LspId::from_number(ID)) {
        Ok(()) => {}
        Err(_) => return Err(OutOfMemory),
    }
    match book.reserve(2) {
        Ok(()) => {}
        Err(_) => return Err(OutOfMemory),
    }
    book.hear_entry(3, &said(3, 600, 9), Whose::Other);
    book.hear_entry(2, &said(3, 600, 9), Whose::Other);
    book.sent(1, LspId::from_number(ID));
    Ok(book)
}

/// Three digits, which are 1 where a flag is set.
fn digits(flags: [bool; 3]) -> u32 {
    let [one, two, three] = flags;
    100 * u32::from(one) + 10 * u32::from(two) + u32::from(three)
}

/// The seconds that SRM of the LSP ID waits on the three circuits, a digit each.
fn waits(book: &Book) -> u64 {
    let Some(row) = book.flag_pages().get(LspId::from_number(ID)) else {
        return 0;
    };
    let [ones, twos, fours] = row.waits;
    let wait = |place: u32| {
        ((ones >> place) & 1) | (((twos >> place) & 1) << 1) | (((fours >> place) & 1) << 2)
    };
    100 * wait(0) + 10 * wait(1) + wait(2)
}

/// The entry of the LSP ID: its number and kind, or that it is empty; checksum, flags, seconds left, the number of its octets.
fn add_entry(text: &mut String, book: &Book) -> Result<(), AllocError> {
    let Some(entry) = book.store().get(LspId::from_number(ID)) else {
        return write!(text, "none");
    };
    match entry.key {
        Some(key) => {
            let (number, kind) = (key.number, if key.purged { "purge" } else { "live" });
            write!(text, "{number} {kind}")?;
        }
        None => write!(text, "empty")?,
    }
    let (checksum, flags, left, len) = (
        entry.checksum,
        entry.flags,
        entry.left,
        entry.octets.len(),
    );
    write!(text, " {checksum} {flags} {left} {len}")
}

/// What is held of the LSP ID, with SRM and SSN on the three circuits, and the seconds that SRM waits.
pub fn shown(alloc: Global, book: &Book) -> Result<String, AllocError>
    requires { book.now.circuits ≡ 3 }
{
    let id = LspId::from_number(ID);
    let srm = digits([book.srm(1, id), book.srm(2, id), book.srm(3, id)]);
    let ssn = digits([book.ssn(1, id), book.ssn(2, id), book.ssn(3, id)]);
    let waits = waits(book);
    let mut text = String::new(alloc);
    add_entry(&mut text, book)?;
    write!(text, " {srm:03} {ssn:03} {waits:03}")?;
    Ok(text)
}

/// Whether the LSP ID is due on a circuit, and nothing before it.
fn is_due(book: &Book, circuit: u8) -> bool
    requires { book.now.circuits ≡ 3 }
{
    circuit >= 1 && circuit <= 3 && book.due(circuit).next() == Some(LspId::from_number(ID))
}

/// Whether this is held.
fn is_shown(alloc: Global, book: &Book, want: &str) -> bool
    requires { book.now.circuits ≡ 3 }
{
    shown(alloc, book).is_ok_and(|text| text.as_str() == want)
}

// What is sent, waits and is answered.
#[test]
fn flags_over_time(rt: HostRuntime) -> Result<(), Fail> {
    let alloc = rt.alloc();
    let id = LspId::from_number(ID);
    let mut book = held(alloc)?;
    assert!(rt; !is_due(&book, 1) && is_due(&book, 3) && book.may_flood(3));
    assert!(rt; book.owed(2).next() == Some(id));
    book.second();
    assert!(rt; is_shown(alloc, &book, "2 live 5 3 900 30 101 011 400"));
    book.second();
    book.second();
    book.second();
    assert!(rt; !is_due(&book, 1));
    book.second();
    assert!(rt; is_due(&book, 1));
    book.answered(2);
    book.sent(3, id);
    assert!(rt; is_shown(alloc, &book, "2 live 5 3 900 30 100 001 000"));
    book.sent_due(3);
    assert!(rt; book.may_flood(1) && !book.may_flood(3));
    book.sent_due(1);
    assert!(rt; !is_due(&book, 1) && is_shown(alloc, &book, "2 live 5 3 900 30 100 001 500"));
    Ok(())
}

// Ranges, marks, and a circuit that closes.
#[test]
fn circuits_of_a_book(rt: HostRuntime) -> Result<(), Fail> {
    let alloc = rt.alloc();
    let (start, end) = (LspId::from_number(0), LspId::from_number(u64::MAX));
    let mut book = held(alloc)?;
    assert!(rt; !book.would_flag_range(start, end, &[said(2, 600, 5)]));
    assert!(rt; book.would_flag_range(start, end, &[]));
    assert!(rt; book.hear_csnp_range(2, start, end, &[]));
    assert!(rt; is_shown(alloc, &book, "2 live 5 3 900 30 111 011 500"));
    book.clear_circuit(3);
    assert!(rt; is_shown(alloc, &book, "2 live 5 3 900 30 110 010 500"));
    book.mark_all(3);
    book.set_open(1, false);
    assert!(rt; !book.is_open(1) && book.is_open(3) && book.is_point(1) && !book.is_point(3));
    assert!(rt; is_shown(alloc, &book, "2 live 5 3 900 30 011 010 000"));
    Ok(())
}

/// Whether a copy holds the LSP ID, with a row of flags, and has room.
fn is_copied(book: &Book) -> Result<bool, OutOfMemory> {
    let copy = book.copy()?;
    let is_held = copy.is_held(LspId::from_number(ID)) && !copy.is_full();
    Ok(is_held && copy.flag_pages().len() == 1)
}

// What is held of one LSP ID.
#[test]
fn entry_of_a_book(rt: HostRuntime) -> Result<(), Fail> {
    let id = LspId::from_number(ID);
    let mut book = held(rt.alloc())?;
    assert!(rt; is_copied(&book)?);
    book.set_left(id, 17);
    assert!(rt; is_shown(rt.alloc(), &book, "2 live 5 3 17 30 101 011 500"));
    book.erase(id);
    assert!(rt; is_shown(rt.alloc(), &book, "none 000 000 000"));
    assert!(rt; book.flag_pages().len() == 0);
    Ok(())
}
