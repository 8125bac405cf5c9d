//! What is counted at the ends of a link.
ghost use Rattle.std.specs.Prelude.{◌≡◌, ◌<◌, ◌≤◌, ℕ, List, ◌&&◌, ◌||◌, not, nat_lt, length, Some, if◌then◌else◌};
ghost use Rattle.isis_base.specs.Identifiers.{lsp_number};
ghost use Rattle.isis_base.specs.Keys.{rank};
ghost use Rattle.model_router.specs.Sets.{has};
ghost use Rattle.model_router.specs.LetGos.{contains, lets_go};
ghost use Rattle.model_router.specs.Books.{rank_at};
ghost use Rattle.flag_sync.specs.BookStates.{book_of};
ghost use Rattle.flag_sync.specs.Walks.{numbers_of};
ghost use Rattle.model_network.specs.Counts.{count_where};
ghost use Rattle.lab_facts.specs.Excepted.{ids_of, count_beyond, excepted_of};
ghost use Rattle.lab_facts.specs.Tallies.{is_flagged, is_ahead};

use crate::cells::Cells;
use flag_sync::{Book, FlagRow};
use isis_base::{Key, LspId, Order3, newer};
use purge_ageing::LetGo;

/// What one end counts.
#[derive(Clone, Copy, Debug)]
pub(crate) struct EndCounts {
    pub(crate) flags: usize,
    pub(crate) ahead: usize,
}

/// The SRM flags of an end on the circuit at a place, and in how many LSP IDs that neither end let
/// go it is ahead of the other.
pub(crate) fn count_end(
    own: &Book,
    place: u8,
    other: &Book,
    gone: &LetGo,
    other_gone: &LetGo,
) -> EndCounts
    requires { place < 64 }
    ensures flags { result.flags ≡ count_where (is_flagged place) (book_of own.now).cells }
    ensures ahead { result.ahead
        ≡ count_where (is_ahead gone.now other_gone.now (book_of other.now))
        (book_of own.now).cells }
{
    let (mut flags, mut ahead) = (0usize, 0usize);
    let mut cells = Cells::new(own);
    while let Some((id, entry, row)) = cells.next() {
        flags += one_if(has_srm(row, place));
        ahead += one_if(leads(id, entry.key, other, gone, other_gone));
    }
    EndCounts { flags, ahead }
}

/// How many LSP IDs were let go by either end, where neither let all go, and else of how many either
/// end holds a key.
pub(crate) fn excepted(gone: &LetGo, other_gone: &LetGo, own: &Book, other: &Book) -> usize
    ensures { result ≡ excepted_of gone.now other_gone.now (book_of own.now) (book_of other.now) }
{
    let Some(ids) = gone.list() else {
        return held_count(own) + held_beyond(own, other);
    };
    let Some(other_ids) = other_gone.list() else {
        return held_count(own) + held_beyond(own, other);
    };
    gone.few_law();
    other_gone.few_law();
    ids.len() + listed_beyond(gone, other_ids)
}

/// Whether the SRM flag of a row stands on the circuit at a place (ISO 10589 7.3.15).
fn has_srm(row: &FlagRow, place: u8) -> bool
    requires { place < 64 }
    ensures { result ≡ has row.now.srm place }
{
    (row.srm >> place) & 1 == 1
}

/// Whether an end that has this key of an LSP ID is ahead of the other, which neither let go.
fn leads(id: LspId, key: Option<Key>, other: &Book, gone: &LetGo, other_gone: &LetGo) -> bool
    ensures { result
        ≡ (not (lets_go gone.now (lsp_number id) || lets_go other_gone.now (lsp_number id))
        && nat_lt (rank_at (book_of other.now) (lsp_number id)) (rank key)) }
{
    match newer(key, other.key(id)) {
        Order3::Newer => !gone.has(id) && !other_gone.has(id),
        Order3::Same => false,
        Order3::Older => false,
    }
}

/// 1 where a test passes, else 0.
fn one_if(passes: bool) -> usize
    ensures { result ≡ (if passes then 1 else 0) }
{
    if passes { 1 } else { 0 }
}

/// Of how many LSP IDs a book holds a key.
fn held_count(book: &Book) -> usize
    ensures count { result ≡ length (ids_of (book_of book.now).cells) }
    ensures few { result ≤ 65536 }
{
    let mut count = 0usize;
    let mut cells = Cells::new(book);
    while let Some((_, entry, _)) = cells.next() {
        count += one_if(has_key(entry.key));
    }
    count
}

/// Of how many LSP IDs the other book alone holds a key.
fn held_beyond(own: &Book, other: &Book) -> usize
    ensures count { result ≡ count_beyond (ids_of (book_of own.now).cells)
        (ids_of (book_of other.now).cells) }
    ensures few { result ≤ 65536 }
{
    let mut count = 0usize;
    let mut cells = Cells::new(other);
    while let Some((id, entry, _)) = cells.next() {
        count += one_if(has_key(entry.key) && !holds(own, id));
    }
    count
}

/// Whether a book holds a key of an LSP ID.
fn holds(book: &Book, id: LspId) -> bool
    ensures { result ≡ contains (ids_of (book_of book.now).cells) (lsp_number id) }
{
    book.order_law();
    has_key(book.key(id))
}

/// Whether there is a key.
fn has_key(key: Option<Key>) -> bool
    ensures { result ≡ nat_lt 0 (rank key) }
{
    key.is_some()
}

/// How many of these were let go by the other end alone.
#[tactic(auto, using(crate::proofs::CellLemmas::gone_is))]
fn listed_beyond(gone: &LetGo, ids: &[LspId]) -> usize
    ensures count { (listed : List ℕ) → gone.now ≡ Some listed
        → result ≡ count_beyond listed (numbers_of ids.now) }
    ensures few { result ≤ length ids.now }
{
    let (mut count, mut left) = (0usize, ids);
    while let [id, more @ ..] = left {
        count += one_if(!gone.has(*id));
        left = more;
    }
    count
}
