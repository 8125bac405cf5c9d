//! The lines of a router in a report.
ghost use Rattle.std.specs.Prelude.{◌≡◌, ◌++◌, Some, OnOk};
ghost use Rattle.std.specs.List.{flat_map};
ghost use Rattle.isis_base.specs.Identifiers.{lsp_number};
ghost use Rattle.isis_base.specs.Keys.{rank};
ghost use Rattle.isis_base.specs.Levels.{level_text};
ghost use Rattle.model_router.specs.Numbers.{system_id};
ghost use Rattle.flag_sync.specs.BookStates.{book_of};
ghost use Rattle.flag_sync.specs.Walks.{numbers_of};
ghost use Rattle.lab_report.specs.RouterLines as lines;

use crate::route_lines::add_routes;
use flag_sync::Book;
use isis_base::{
    Key, Level, LspId, Octets, OutOfMemory, SystemId, add_lsp_id, add_number, add_system_id,
};
use model_router::laws::identifiers::system_law;
use network_lab::Router;
use purge_ageing::LetGo;
use route_table::Route;
use router_desk::DropName;
use router_sending::laws::id_law;

/// Adds a router's block: its system and boot, the LSPs that it holds, those that it let go, its
/// routes, and what it dropped.
#[tactic(auto, unfolding(crate::specs::RouterLines::router_lines))]
pub(crate) fn add_router(
    page: &mut Octets,
    name: &str,
    router: &Router,
    routes: &[Route],
) -> Result<(), OutOfMemory>
    ensures { OnOk result (page.new
        ≡ page.old ++ lines.router_lines name.now router.now routes.now) }
{
    add_router_line(page, name, router)?;
    add_level(page, name, router, Level::One)?;
    add_level(page, name, router, Level::Two)?;
    add_routes(page, name, routes)?;
    add_drops(page, name, router)
}

/// `router NAME SYSTEM boot B`.
fn add_router_line(page: &mut Octets, name: &str, router: &Router) -> Result<(), OutOfMemory>
    ensures { OnOk result (page.new ≡ page.old ++ lines.router_line name.now router.now) }
{
    add_router_words(page, name, system_of(router), router.boot())
}

#[tactic(auto, unfolding(crate::specs::RouterLines::router_words))]
fn add_router_words(
    page: &mut Octets,
    name: &str,
    system: SystemId,
    boot: u32,
) -> Result<(), OutOfMemory>
    ensures { OnOk result (page.new ≡ page.old ++ lines.router_words name.now system boot) }
{
    page.extend(b"router ")?;
    page.extend(name.as_bytes())?;
    add_system_id(page, b" ", system)?;
    add_number(page, b" boot ", u64::from(boot))?;
    page.extend(b"\n")
}

/// The lines of a level, where the router runs it.
#[tactic(auto, unfolding(crate::specs::RouterLines::level_lines))]
fn add_level(
    page: &mut Octets,
    name: &str,
    router: &Router,
    level: Level,
) -> Result<(), OutOfMemory>
    ensures { OnOk result (page.new ≡ page.old ++ lines.level_lines name.now router.now level) }
{
    match router.book(level) {
        Some(book) => {
            add_lsps(page, name, level, book)?;
            add_gone(page, name, level, router.let_go(level))
        }
        None => Ok(()),
    }
}

/// The lines of the LSPs that have a key.
fn add_lsps(page: &mut Octets, name: &str, level: Level, book: &Book) -> Result<(), OutOfMemory>
    ensures { OnOk result (page.new
        ≡ page.old ++ lines.lsp_lines name.now level (book_of book.now).cells) }
{
    let mut entries = book.store().pages().pairs();
    let mut rows = book.flag_pages().pairs();
    while let Some((id, entry)) = entries.next() {
        let Some(_) = rows.next() else {
            return Ok(());
        };
        match add_entry(page, name, level, id, entry.key) {
            Ok(()) => {}
            Err(error) => return Err(error),
        }
    }
    Ok(())
}

/// The line of an LSP, where it has a key.
fn add_entry(
    page: &mut Octets,
    name: &str,
    level: Level,
    id: LspId,
    key: Option<Key>,
) -> Result<(), OutOfMemory>
    ensures { OnOk result (page.new
        ≡ page.old ++ lines.line_of name.now level (lsp_number id) (rank key)) }
{
    match key {
        Some(key) => add_lsp(page, name, level, id, key),
        None => Ok(()),
    }
}

/// `lsp NAME LEVEL LSPID NUMBER live|purged`.
#[tactic(auto, unfolding(crate::specs::RouterLines::lsp_line))]
fn add_lsp(
    page: &mut Octets,
    name: &str,
    level: Level,
    id: LspId,
    key: Key,
) -> Result<(), OutOfMemory>
    ensures { OnOk result (page.new
        ≡ page.old ++ lines.lsp_line name.now level (lsp_number id) (rank (Some key))) }
{
    page.extend(b"lsp ")?;
    add_lsp_words(page, name, level, id)?;
    add_number(page, b" ", u64::from(key.number))?;
    if key.purged {
        page.extend(b" purged\n")
    } else {
        page.extend(b" live\n")
    }
}

/// A name, a level and an LSP ID.
#[tactic(auto, unfolding(crate::specs::RouterLines::lsp_words))]
fn add_lsp_words(page: &mut Octets, name: &str, level: Level, id: LspId) -> Result<(), OutOfMemory>
    ensures { OnOk result (page.new
        ≡ page.old ++ lines.lsp_words name.now level (lsp_number id)) }
{
    id_law(id);
    page.extend(name.as_bytes())?;
    page.extend(b" ")?;
    page.extend(level_word(level))?;
    add_lsp_id(page, b" ", id)
}

/// A level's word.
pub(crate) fn level_word(level: Level) -> &'static [u8]
    ensures { result.now ≡ level_text level }
{
    match level {
        Level::One => b"L1",
        Level::Two => b"L2",
    }
}

/// The lines of what was let go.
#[tactic(auto, unfolding(crate::specs::RouterLines::gone_lines))]
fn add_gone(page: &mut Octets, name: &str, level: Level, gone: &LetGo) -> Result<(), OutOfMemory>
    ensures { OnOk result (page.new ≡ page.old ++ lines.gone_lines name.now level gone.now) }
{
    match gone.list() {
        Some(ids) => add_gone_ids(page, name, level, ids),
        None => {
            page.extend(b"letgo ")?;
            page.extend(name.as_bytes())?;
            page.extend(b" ")?;
            page.extend(level_word(level))?;
            page.extend(b" all\n")
        }
    }
}

/// A line for each LSP ID that was let go.
fn add_gone_ids(
    page: &mut Octets,
    name: &str,
    level: Level,
    ids: &[LspId],
) -> Result<(), OutOfMemory>
    ensures { OnOk result (page.new
        ≡ page.old ++ flat_map (lines.gone_line name.now level) (numbers_of ids.now)) }
{
    for id in ids {
        match add_gone_id(page, name, level, *id) {
            Ok(()) => {}
            Err(error) => return Err(error),
        }
    }
    Ok(())
}

/// `letgo NAME LEVEL LSPID`.
#[tactic(auto, unfolding(crate::specs::RouterLines::gone_line))]
fn add_gone_id(page: &mut Octets, name: &str, level: Level, id: LspId) -> Result<(), OutOfMemory>
    ensures { OnOk result (page.new
        ≡ page.old ++ lines.gone_line name.now level (lsp_number id)) }
{
    page.extend(b"letgo ")?;
    add_lsp_words(page, name, level, id)?;
    page.extend(b"\n")
}

/// A line for each cause that was met, in the order in which they are tested.
fn add_drops(page: &mut Octets, name: &str, router: &Router) -> Result<(), OutOfMemory>
    ensures { OnOk result (page.new
        ≡ page.old ++ flat_map (lines.drop_line name.now router.now) lines.causes) }
{
    let causes = [
        DropName::Frame,
        DropName::Version,
        DropName::Pdu,
        DropName::TooLong,
        DropName::WrongKind,
        DropName::WrongLevel,
        DropName::Auth,
        DropName::Value,
        DropName::ZeroNumber,
        DropName::BadChecksum,
        DropName::OwnId,
        DropName::OtherSnpa,
        DropName::OldBoot,
        DropName::NoLevel,
        DropName::NoArea,
        DropName::NoThreeWay,
        DropName::OtherNeighbour,
        DropName::TooMany,
        DropName::NoAdjacency,
        DropName::NotDesignated,
        DropName::StoreFull,
    ];
    add_causes(page, name, router, &causes)
}

/// A line for each of these causes that was met.
fn add_causes(
    page: &mut Octets,
    name: &str,
    router: &Router,
    causes: &[DropName],
) -> Result<(), OutOfMemory>
    ensures { OnOk result (page.new
        ≡ page.old ++ flat_map (lines.drop_line name.now router.now) causes.now) }
{
    for cause in causes {
        match add_drop(page, name, router, *cause) {
            Ok(()) => {}
            Err(error) => return Err(error),
        }
    }
    Ok(())
}

/// `drop NAME WORD COUNT`, where the count isn't 0.
#[tactic(auto, unfolding(crate::specs::RouterLines::drop_line))]
fn add_drop(
    page: &mut Octets,
    name: &str,
    router: &Router,
    cause: DropName,
) -> Result<(), OutOfMemory>
    ensures { OnOk result (page.new ≡ page.old ++ lines.drop_line name.now router.now cause) }
{
    let count = router.drops(cause);
    if count == 0 {
        return Ok(());
    }
    page.extend(b"drop ")?;
    page.extend(name.as_bytes())?;
    page.extend(b" ")?;
    page.extend(cause.word().as_bytes())?;
    add_number(page, b" ", count)?;
    page.extend(b"\n")
}

/// A router's system ID.
pub(crate) fn system_of(router: &Router) -> SystemId
    ensures { system_id router.now.config.system ≡ result }
{
    let system = router.desk().system();
    system_law(system);
    system
}
