//! Rows of the tables of flag_sync for LSPs and entries that are heard.
ghost use Rattle.std.specs.Prelude.{◌≡◌, IfOk};

use crate::books::{bare, held, said, shown};
use flag_sync::{Book, LspHeard, Whose};
use isis_base::{LspEntry, LspId, OutOfMemory};
use std::alloc::Global;
use std::test::Fail;

/// What is heard, the circuit that it is heard on, and whose the LSP ID is.
#[derive(Clone, Copy)]
struct Heard {
    circuit: u8,
    whose: Whose,
    said: LspEntry,
}

fn whose_of(word: &str) -> Whose {
    match word.as_bytes() {
        b"issued" => Whose::Issued,
        b"unissued" => Whose::Unissued,
        _ => Whose::Other,
    }
}

/// What is heard by its words: the circuit, whose, the number, the lifetime and the checksum.
fn heard_of(words: &str) -> Option<Heard> {
    let (circuit, rest) = words.split_once(' ')?;
    let (whose, rest) = rest.split_once(' ')?;
    let (number, rest) = rest.split_once(' ')?;
    let (lifetime, checksum) = rest.split_once(' ')?;
    let number = number.parse::<u32>().ok()?;
    let lifetime = lifetime.parse::<u16>().ok()?;
    let checksum = checksum.parse::<u16>().ok()?;
    Some(Heard {
        circuit: circuit.parse::<u8>().ok()?,
        whose: whose_of(whose),
        said: said(number, lifetime, checksum),
    })
}

/// What becomes of an LSP that is heard, and what is held then.
fn after_lsp(alloc: Global, book: &mut Book, heard: &Heard) -> Option<String>
    requires { book.old.circuits ≡ 3 }
{
    if heard.circuit < 1 || heard.circuit > 3 || heard.said.number == 0 {
        return None;
    }
    let octets = [2u8; 40];
    let lsp = LspHeard {
        entry: heard.said,
        flags: 1,
        octets: octets.as_slice(),
    };
    let foreseen = book.would_meet(&lsp, heard.whose);
    match book.hear_lsp(heard.circuit, &lsp, heard.whose) {
        Ok(answer) if answer == foreseen => {
            let state = shown(alloc, book).ok()?;
            format!(in alloc; "{answer:?}|{state}").ok()
        }
        Ok(_) => None,
        Err(_) => None,
    }
}

/// What becomes of an entry that is heard: whether a flag is set, and the number that outbids; and what is held then.
fn after_entry(alloc: Global, book: &mut Book, heard: &Heard) -> Option<String>
    requires { book.old.circuits ≡ 3 }
{
    let has_room = book.spare() > 0 || book.store().len() >= 65_536;
    if heard.circuit < 1 || heard.circuit > 3 || !has_room {
        return None;
    }
    let foreseen = book.would_flag(&heard.said);
    let answer = book.hear_entry(heard.circuit, &heard.said, heard.whose);
    if foreseen != answer.flagged {
        return None;
    }
    let (flagged, outbid) = (answer.flagged, answer.outbid);
    let state = shown(alloc, book).ok()?;
    format!(in alloc; "{flagged} {outbid:?}|{state}").ok()
}

/// The rows for LSPs, in their order: what is heard where the entry is held, the answer, and what is held then.
const LSPS: &str = "\
1 issued 3 600 9|Outbid { above: 3 }|2 live 5 3 900 30 101 011 500
1 issued 2 600 6|Outbid { above: 2 }|2 live 5 3 900 30 101 011 500
1 unissued 3 600 9|PurgedOwn|3 purge 0 1 60 27 111 000 000
1 other 2 600 6|Confused|2 purge 0 3 60 27 111 000 000
1 other 3 600 9|Stored|3 live 9 1 600 40 011 100 000
3 other 3 600 9|Stored|3 live 9 1 600 40 110 001 000
1 other 2 0 0|Stored|2 purge 0 1 60 27 011 100 000
1 other 2 600 5|Same|2 live 5 3 900 30 001 111 000
3 other 2 600 5|Same|2 live 5 3 900 30 100 011 500
2 other 1 600 9|Older|2 live 5 3 900 30 111 001 500";

fn is_met_by_lsp(alloc: Global, row: &str) -> Option<bool> {
    let (words, want) = row.split_once('|')?;
    let heard = heard_of(words)?;
    let Ok(mut book) = held(alloc) else {
        return None;
    };
    Some(after_lsp(alloc, &mut book, &heard)?.as_str() == want)
}

fn first_wrong_lsp<'a>(alloc: Global, rows: &'a str) -> Option<&'a str> {
    for row in rows.lines() {
        if is_met_by_lsp(alloc, row) != Some(true) {
            return Some(row);
        }
    }
    None
}

#[test]
fn lsps_heard(rt: HostRuntime) {
    assert_eq!(rt; first_wrong_lsp(rt.alloc(), LSPS), None);
}

/// The rows for entries of what is held, in their order.
const ENTRIES: &str = "\
1 issued 2 600 6|true Some(2)|2 live 5 3 900 30 101 011 500
1 other 2 600 6|true None|2 purge 0 3 60 27 111 000 000
1 other 2 600 5|false None|2 live 5 3 900 30 001 011 000
3 other 2 600 5|false None|2 live 5 3 900 30 101 011 500
2 other 1 600 9|true None|2 live 5 3 900 30 111 001 500
1 other 3 600 9|true None|2 live 5 3 900 30 001 111 000";

/// The rows for entries of what isn't held.
const NEW_ENTRIES: &str = "\
1 other 0 0 0|false None|none 000 000 000
1 other 3 600 9|true None|empty 0 0 60 0 000 100 000
1 other 3 600 0|false None|none 000 000 000
1 other 3 0 9|false None|none 000 000 000";

fn is_met_by_entry(alloc: Global, row: &str, is_held: bool) -> Option<bool> {
    let (words, want) = row.split_once('|')?;
    let heard = heard_of(words)?;
    let Ok(mut book) = book_of(alloc, is_held) else {
        return None;
    };
    Some(after_entry(alloc, &mut book, &heard)?.as_str() == want)
}

/// The book with the entry, or without it.
fn book_of(alloc: Global, is_held: bool) -> Result<Book, OutOfMemory>
    ensures { IfOk result (λ book. book.circuits ≡ 3) }
{
    if is_held {
        return held(alloc);
    }
    bare(alloc)
}

fn first_wrong_entry<'a>(alloc: Global, rows: &'a str, is_held: bool) -> Option<&'a str> {
    for row in rows.lines() {
        if is_met_by_entry(alloc, row, is_held) != Some(true) {
            return Some(row);
        }
    }
    None
}

#[test]
fn entries_heard(rt: HostRuntime) {
    assert_eq!(rt; first_wrong_entry(rt.alloc(), ENTRIES, true), None);
    assert_eq!(rt; first_wrong_entry(rt.alloc(), NEW_ENTRIES, false), None);
}

/// Whether an LSP is answered so in a book, and this is held then.
fn is_answered(alloc: Global, book: &mut Book, words: &str, want: &str) -> Option<bool>
    requires { book.old.circuits ≡ 3 }
{
    let heard = heard_of(words)?;
    Some(after_lsp(alloc, book, &heard)?.as_str() == want)
}

/// The same of an entry.
fn is_entry_answered(alloc: Global, book: &mut Book, words: &str, want: &str) -> Option<bool>
    requires { book.old.circuits ≡ 3 }
{
    let heard = heard_of(words)?;
    Some(after_entry(alloc, book, &heard)?.as_str() == want)
}

/// Whether this is held.
fn is_shown(alloc: Global, book: &Book, want: &str) -> bool
    requires { book.now.circuits ≡ 3 }
{
    shown(alloc, book).is_ok_and(|text| text.as_str() == want)
}

/// The book without the entry, in which the LSP ID was asked for on circuit 1.
fn asking(alloc: Global) -> Result<Book, OutOfMemory>
    ensures { IfOk result (λ book. book.circuits ≡ 3) }
{
    let mut book = match bare(alloc) {
        Ok(book) => book,
        Err(fault) => return Err(fault),
    };
    if book.spare() > 0 {
        book.hear_entry(1, &said(3, 600, 9), Whose::Other);
    }
    Ok(book)
}

/// What comes of a purge that isn't kept.
const GONE: &str = "AckPurge|none 000 000 000";

// A purge of which nothing is held.
#[test]
fn purge_of_nothing_heard(rt: HostRuntime) -> Result<(), Fail> {
    let mut book = bare(rt.alloc())?;
    assert!(rt; is_answered(rt.alloc(), &mut book, "1 other 4 0 0", GONE) == Some(true));
    Ok(())
}

// A purge of which an empty entry is held, which goes.
#[test]
fn purge_of_an_empty_entry_heard(rt: HostRuntime) -> Result<(), Fail> {
    let mut book = asking(rt.alloc())?;
    assert!(rt; is_shown(rt.alloc(), &book, "empty 0 0 60 0 000 100 000"));
    assert!(rt; is_answered(rt.alloc(), &mut book, "2 other 4 0 0", GONE) == Some(true));
    Ok(())
}

// An entry newer than what is held, on a LAN: it is asked for, and what is held still sent.
#[test]
fn newer_entry_heard_on_a_lan(rt: HostRuntime) -> Result<(), Fail> {
    let mut book = held(rt.alloc())?;
    book.answered(3);
    assert!(rt; is_shown(rt.alloc(), &book, "2 live 5 3 900 30 101 010 500"));
    let want = "true None|2 live 5 3 900 30 101 011 500";
    assert!(rt; is_entry_answered(rt.alloc(), &mut book, "3 other 3 600 9", want) == Some(true));
    Ok(())
}

/// Fills a book with empty entries, none of them of the LSP ID.
pub fn fill(book: &mut Book)
    requires { book.old.circuits ≡ 3 }
    ensures { book.new.circuits ≡ 3 }
{
    for number in 8..65_544u64 {
        let asked = LspEntry {
            id: LspId::from_number(number),
            ..said(3, 600, 9)
        };
        if book.spare() > 0 {
            book.hear_entry(1, &asked, Whose::Other);
        }
    }
}

// In a full store what isn't held is flagged, and nothing is made.
#[test]
fn an_entry_heard_in_a_full_store(rt: HostRuntime) -> Result<(), Fail> {
    let mut book = bare(rt.alloc())?;
    assert!(rt; book.reserve(65_536).is_ok());
    fill(&mut book);
    assert!(rt; book.is_full());
    let want = "true None|none 000 000 000";
    assert!(rt; is_entry_answered(rt.alloc(), &mut book, "1 other 3 600 9", want) == Some(true));
    Ok(())
}
