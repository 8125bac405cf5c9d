//! The lines of a level: what is held, with its flags, and what was forgotten.
ghost use Rattle.std.specs.Prelude.{◌≡◌, ◌++◌, OnOk};
ghost use Rattle.std.specs.List.{flat_map};
ghost use Rattle.isis_base.specs.Identifiers.{lsp_number};
ghost use Rattle.isis_base.specs.Keys.{rank};
ghost use Rattle.flag_sync.specs.BookStates.{book_of};
ghost use Rattle.flag_sync.specs.FlagRows.{cell_of};
ghost use Rattle.flag_sync.specs.Walks.{numbers_of};
ghost use Rattle.lsp_store.specs.declared.entry.Entry.{Entry};
ghost use Rattle.flag_sync.specs.declared.flag_row.FlagRow.{FlagRow};
ghost use Rattle.state_text.specs.StateLines as lines;

use crate::circuit_lines::level_word;
use crate::flag_words::add_set;
use flag_sync::{Book, FlagRow};
use isis_base::{Key, Level, LspId, Octets, OutOfMemory, add_hex, add_lsp_id, add_number};
use lsp_store::Entry;
use purge_ageing::LetGo;
use router_core::Router;
use router_sending::laws::id_law;

/// The lines of a level, where the router runs it.
#[tactic(auto, unfolding(crate::specs::StateLines::level_lines))]
pub(crate) fn add_level(page: &mut Octets, router: &Router, level: Level) -> Result<(), OutOfMemory>
    ensures { OnOk result (page.new ≡ page.old ++ lines.level_lines router.now level) }
{
    match router.book(level) {
        Some(book) => {
            add_lsps(page, level, book)?;
            add_gone(page, level, router.let_go(level))
        }
        None => Ok(()),
    }
}

/// A line for each entry.
fn add_lsps(page: &mut Octets, level: Level, book: &Book) -> Result<(), OutOfMemory>
    ensures { OnOk result (page.new
        ≡ page.old ++ lines.lsp_lines level (book_of book.now).cells) }
{
    let mut entries = book.store().pages().pairs();
    let mut rows = book.flag_pages().pairs();
    while let Some((id, entry)) = entries.next() {
        let Some((_, row)) = rows.next() else {
            return Ok(());
        };
        match add_lsp(page, level, id, entry, row) {
            Ok(()) => {}
            Err(error) => return Err(error),
        }
    }
    Ok(())
}

/// `lsp LEVEL LSPID ..`.
#[tactic(auto, unfolding(crate::specs::StateLines::lsp_line))]
fn add_lsp(
    page: &mut Octets,
    level: Level,
    id: LspId,
    entry: &Entry,
    row: &FlagRow,
) -> Result<(), OutOfMemory>
    ensures { OnOk result (page.new
        ≡ page.old ++ lines.lsp_line level (lsp_number id) (cell_of entry.now row.now)) }
{
    add_held(page, level, id, entry)?;
    add_flags(page, row)?;
    page.extend(b"\n")
}

/// What is held, without its flags.
#[tactic(auto, unfolding(crate::specs::StateLines::held_words))]
fn add_held(page: &mut Octets, level: Level, id: LspId, entry: &Entry) -> Result<(), OutOfMemory>
    ensures { (row : FlagRow) → OnOk result (page.new
        ≡ page.old ++ lines.held_words level (lsp_number id) (cell_of entry.now row)) }
{
    page.extend(b"lsp ")?;
    add_words(page, level, id)?;
    add_key(page, entry.key)?;
    add_number(page, b" left ", u64::from(entry.left))?;
    add_checksum(page, entry.checksum)
}

/// The circuits on which its flags stand.
#[tactic(auto, unfolding(crate::specs::StateLines::flag_words))]
fn add_flags(page: &mut Octets, row: &FlagRow) -> Result<(), OutOfMemory>
    ensures { (entry : Entry) → OnOk result (page.new
        ≡ page.old ++ lines.flag_words (cell_of entry row.now)) }
{
    add_set(page, b" srm", row.srm)?;
    add_set(page, b" ssn", row.ssn)
}

/// A level and an LSP ID.
#[tactic(auto, unfolding(crate::specs::StateLines::lsp_words))]
fn add_words(page: &mut Octets, level: Level, id: LspId) -> Result<(), OutOfMemory>
    ensures { OnOk result (page.new ≡ page.old ++ lines.lsp_words level (lsp_number id)) }
{
    id_law(id);
    page.extend(level_word(level))?;
    add_lsp_id(page, b" ", id)
}

/// ` NUMBER live`, ` NUMBER purged` or ` empty`.
#[tactic(auto, unfolding(crate::specs::StateLines::key_words))]
fn add_key(page: &mut Octets, key: Option<Key>) -> Result<(), OutOfMemory>
    ensures { OnOk result (page.new ≡ page.old ++ lines.key_words (rank key)) }
{
    match key {
        Some(key) => {
            add_number(page, b" ", u64::from(key.number))?;
            page.extend(key_word(key.purged))
        }
        None => page.extend(b" empty"),
    }
}

fn key_word(purged: bool) -> &'static [u8]
    ensures { result.now ≡ lines.key_text purged }
{
    if purged { b" purged" } else { b" live" }
}

/// ` checksum XXXX`.
#[tactic(auto, unfolding(crate::specs::StateLines::checksum_words))]
fn add_checksum(page: &mut Octets, checksum: u16) -> Result<(), OutOfMemory>
    ensures { OnOk result (page.new ≡ page.old ++ lines.checksum_words checksum) }
{
    page.extend(b" checksum ")?;
    add_hex_field(page, checksum)
}

/// A number's two octets in hex.
#[tactic(auto, unfolding(crate::specs::StateLines::hex_field))]
fn add_hex_field(page: &mut Octets, number: u16) -> Result<(), OutOfMemory>
    ensures { OnOk result (page.new ≡ page.old ++ lines.hex_field number) }
{
    let [high, low] = number.to_be_bytes();
    add_hex(page, high)?;
    add_hex(page, low)
}

/// The lines of what was forgotten.
#[tactic(auto, unfolding(crate::specs::StateLines::gone_lines))]
fn add_gone(page: &mut Octets, level: Level, gone: &LetGo) -> Result<(), OutOfMemory>
    ensures { OnOk result (page.new ≡ page.old ++ lines.gone_lines level gone.now) }
{
    match gone.list() {
        Some(ids) => add_gone_ids(page, level, ids),
        None => {
            page.extend(b"letgo ")?;
            page.extend(level_word(level))?;
            page.extend(b" all\n")
        }
    }
}

/// A line for each LSP ID that was forgotten.
fn add_gone_ids(page: &mut Octets, level: Level, ids: &[LspId]) -> Result<(), OutOfMemory>
    ensures { OnOk result (page.new
        ≡ page.old ++ flat_map (lines.gone_line level) (numbers_of ids.now)) }
{
    for id in ids {
        match add_gone_id(page, level, *id) {
            Ok(()) => {}
            Err(error) => return Err(error),
        }
    }
    Ok(())
}

/// `letgo LEVEL LSPID`.
#[tactic(auto, unfolding(crate::specs::StateLines::gone_line))]
fn add_gone_id(page: &mut Octets, level: Level, id: LspId) -> Result<(), OutOfMemory>
    ensures { OnOk result (page.new ≡ page.old ++ lines.gone_line level (lsp_number id)) }
{
    page.extend(b"letgo ")?;
    add_words(page, level, id)?;
    page.extend(b"\n")
}
