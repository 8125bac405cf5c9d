//! A journal, read line by line.
ghost use Rattle.std.specs.Prelude.{◌≡◌, ◌<◌, ◌+◌, ◌^◌, Some, IfOk, IfErr};
ghost use Rattle.journal_text.specs.Entries.{entry_of};
ghost use Rattle.journal_text.specs.Journals.{Good, journal_of, is_end, IsFaultOf, IsLineFault};
ghost use Rattle.line_cuts.specs.Cuts.{parts_behind};
ghost use Rattle.line_cuts.specs.Words.{words_of};

use crate::entry::WovenEntry;
use crate::fault::JournalFault;
use crate::forms::read_line;
use line_cuts::cut;
use std::alloc::Global;

/// Reads a daemon's journal. The first line that is none of a journal with entries numbered from 1
/// is told.
pub fn read_journal(alloc: Global, text: &[u8]) -> Result<Vec<WovenEntry>, JournalFault>
    ensures ok { IfOk result (λ entries. journal_of text.now ≡ Good entries.items) }
    ensures err { IfErr result (λ fault. IsFaultOf (journal_of text.now) fault) }
{
    let (head, behind) = cut(text, b'\n');
    if head != b"isis-journal 1".as_slice() {
        return Err(JournalFault::Line { line: 1 });
    }
    let mut entries = Vec::new(alloc);
    let mut number = 1usize;
    let mut left = behind;
    while let Some(rest) = left {
        let (line, behind) = cut(rest, b'\n');
        if ends(line, behind) {
            return Ok(entries);
        }
        let entry = match read_entry(alloc, number, line) {
            Ok(entry) => entry,
            Err(fault) => return Err(fault),
        };
        match entries.push(entry) {
            Ok(()) => {}
            Err(_) => return Err(JournalFault::OutOfMemory),
        }
        number += 1;
        left = behind;
    }
    Ok(entries)
}

/// Whether this is the empty line behind the last LF.
fn ends(line: &[u8], behind: Option<&[u8]>) -> bool
    ensures { result ≡ is_end line.now (parts_behind 10 behind.entry) }
{
    match behind {
        Some(_) => false,
        None => line.is_empty(),
    }
}

/// The entry of this number, of its line.
pub fn read_entry(alloc: Global, number: usize, line: &[u8]) -> Result<WovenEntry, JournalFault>
    requires { number + 1 < 2 ^ 64 }
    ensures ok { IfOk result (λ entry. entry_of number (words_of line.now) ≡ Some entry) }
    ensures err { IfErr result (IsLineFault number (entry_of number (words_of line.now))) }
{
    let Some(lent) = read_line(number, line) else {
        return Err(JournalFault::Line { line: number + 1 });
    };
    match lent.copy(alloc) {
        Ok(entry) => Ok(entry),
        Err(_) => Err(JournalFault::OutOfMemory),
    }
}
