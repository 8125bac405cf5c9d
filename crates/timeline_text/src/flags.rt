//! The SRM flags of routers.
ghost use Rattle.std.specs.Prelude.{◌≡◌, ◌<◌, ◌≤◌, ◌*◌, length, IfSome, if◌then◌else◌};
ghost use Rattle.std.specs.List.{sum_by};
ghost use Rattle.isis_base.specs.declared.level.Level.{Level as LevelOf};
ghost use Rattle.model_router.specs.Places.{nth};
ghost use Rattle.model_router.specs.Routers.{Router as RouterOf, book_of};
ghost use Rattle.model_router.specs.Sets.{has};
ghost use Rattle.model_network.specs.Counts.{count_where};
ghost use Rattle.flag_sync.specs.BookStates.{book_of as book_in};
ghost use Rattle.timeline_text.specs.Agreements as agree;

use flag_sync::{Book, FlagRow};
use isis_base::Level;
use network_lab::Network;

/// How many SRM flags all routers have at a level (ISO 10589 7.3.15).
pub(crate) fn all_flags(network: &Network, level: Level) -> u64
    requires { length network.now.seen.routers ≤ 1024 }
    ensures { result ≡ sum_by (agree.router_flags level) network.now.seen.routers }
{
    let mut flags = 0u64;
    for router in 0..network.routers() {
        flags += router_flags(network, router, level);
    }
    flags
}

/// How many SRM flags a router has on its circuits; none where it doesn't run the level.
fn router_flags(network: &Network, router: usize, level: Level) -> u64
    requires { router < length network.now.seen.routers }
    ensures flags { IfSome (nth network.now.seen.routers router)
        (λ r. result ≡ agree.router_flags level r) }
    ensures few { result ≤ 4194304 }
{
    let circuits = network.ports(router).len();
    let here = network.router(router);
    here.facts();
    match here.book(level) {
        Some(book) => book_flags(book, circuits),
        None => 0,
    }
}

/// How many SRM flags a book has on its first so many circuits.
fn book_flags(book: &Book, circuits: usize) -> u64
    requires { circuits ≤ 64 }
    ensures flags { (r : RouterOf) (level : LevelOf) → book_in book.now ≡ book_of r level
        → result ≡ agree.flags_on r level circuits }
    ensures few { result ≤ circuits * 65536 }
{
    let mut flags = 0u64;
    for place in 0..circuits {
        flags += circuit_flags(book, place as u8);
    }
    flags
}

/// How many SRM flags a book has on the circuit at a place.
fn circuit_flags(book: &Book, place: u8) -> u64
    requires { place < 64 }
    ensures flags { result ≡ count_where (λ id cell. has cell.srm place) (book_in book.now).cells }
    ensures few { result ≤ 65536 }
{
    let _len = book.store().len();
    let mut flags = 0u64;
    let mut rows = book.flag_pages().pairs();
    while let Some((_, row)) = rows.next() {
        flags += one_if(has_srm(row, place));
    }
    flags
}

/// Whether the SRM flag of a row stands on the circuit at a place.
fn has_srm(row: &FlagRow, place: u8) -> bool
    requires { place < 64 }
    ensures { result ≡ has row.now.srm place }
{
    (row.srm >> place) & 1 == 1
}

/// 1 where a test passes, else 0.
pub(crate) fn one_if(passes: bool) -> u64
    ensures value { result ≡ (if passes then 1 else 0) }
    ensures few { result ≤ 1 }
{
    if passes { 1 } else { 0 }
}
