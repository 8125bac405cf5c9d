//! Pairs put into pages and taken out of them. None of it takes memory.
ghost use Rattle.std.specs.Prelude.{◌≡◌, ℕ, ◌+◌, ◌<◌, ◌≤◌, ◌-◌, ◌^◌, ◌⊎◌, [], length, take, drop, max, slice_index_or, vec_len, vec_capacity, OnOk, OnErr, IfOk, IfErr, IsOk, IsSome, MatchResult, MatchOption, None, Some, true, false};
ghost use Rattle.isis_base.specs.Identifiers.{lsp_number};
ghost use Rattle.lsp_store.specs.Maps.{RisesFrom, find, put, erase};
ghost use Rattle.lsp_store.specs.Places.{IsHome, IsHeldAt, IsGapAt, IsFreeAt, AllFilled, AllEmpty, HasRoom, flatten};
ghost use Rattle.lsp_store.specs.PageFacts.{first_number, joined};
ghost use Rattle.lsp_store.specs.Rooms.{strain, IsEnough, AreDense, AreNearlyDense};

use crate::page::{PAGE_PAIRS, Page};
use isis_base::LspId;

/// Puts a value in the place of the one there.
pub(crate) fn put_held<T>(pages: &mut Vec<Page<T>>, at: (usize, usize), id: LspId, value: T) -> T
    requires at { IsHeldAt pages.old.items (lsp_number id) at }
    requires filled { AllFilled pages.old.items }
    requires dense { AreDense pages.old.items }
    ensures old { find (flatten pages.old.items) (lsp_number id) ≡ Some result }
    ensures all { flatten pages.new.items ≡ put (flatten pages.old.items) id value }
    ensures strain { strain pages.new.items ≤ strain pages.old.items }
    ensures filled { AllFilled pages.new.items }
    ensures dense { AreDense pages.new.items }
    ensures len { vec_len pages.new ≡ vec_len pages.old }
    ensures capacity { vec_capacity pages.new ≡ vec_capacity pages.old }
{
    pages[at.0].replace(at.1, id, value)
}

/// A new pair. It takes no memory.
pub(crate) fn put_new<T: Drop>(
    pages: &mut Vec<Page<T>>,
    pool: &mut Vec<Page<T>>,
    at: (usize, usize),
    id: LspId,
    value: T,
)
    requires at { IsFreeAt pages.old.items (lsp_number id) at }
    requires filled { AllFilled pages.old.items }
    requires dense { AreDense pages.old.items }
    requires rises { RisesFrom 0 (flatten pages.old.items) }
    requires empty { AllEmpty pool.old.items }
    requires some { (spare : ℕ) × IsEnough pages.old.items (vec_len pool.old) (spare + 1) }
    requires room { HasRoom (vec_len pages.old) (vec_len pool.old)
        (vec_capacity pages.old) (vec_capacity pool.old) }
    ensures all { flatten pages.new.items ≡ put (flatten pages.old.items) id value }
    ensures filled { AllFilled pages.new.items }
    ensures dense { AreDense pages.new.items }
    ensures empty { AllEmpty pool.new.items }
    ensures enough { (spare : ℕ) → IsEnough pages.old.items (vec_len pool.old) (spare + 1)
        → IsEnough pages.new.items (vec_len pool.new) spare }
    ensures room { HasRoom (vec_len pages.new) (vec_len pool.new)
        (vec_capacity pages.new) (vec_capacity pool.new) }
{
    if pages.is_empty() {
        put_first(pages, take_page(pool), id, value);
        return;
    }
    if pages[at.0].len() < PAGE_PAIRS {
        put_inside(pages, at, id, value);
        return;
    }
    put_beside(pages, at.0, id, value, take_page(pool));
}

/// The first pair of all.
fn put_first<T>(pages: &mut Vec<Page<T>>, mut page: Page<T>, id: LspId, value: T)
    requires none { pages.old.items ≡ [] }
    requires empty { page ≡ [] }
    requires room { vec_len pages.old < vec_capacity pages.old }
    ensures all { flatten pages.new.items ≡ put [] id value }
    ensures strain { strain pages.new.items ≡ 1 }
    ensures filled { AllFilled pages.new.items }
    ensures dense { AreDense pages.new.items }
    ensures len { vec_len pages.new ≡ vec_len pages.old + 1 }
    ensures capacity { vec_capacity pages.new ≡ vec_capacity pages.old }
{
    page.insert(0, id, value);
    pages.push_reserved(page);
}

/// A new pair, where its page has room.
fn put_inside<T>(pages: &mut Vec<Page<T>>, at: (usize, usize), id: LspId, value: T)
    requires at { IsGapAt pages.old.items (lsp_number id) at }
    requires filled { AllFilled pages.old.items }
    requires dense { AreDense pages.old.items }
    requires room { length (slice_index_or pages.old.items at.0 []) < 64 }
    ensures all { flatten pages.new.items ≡ put (flatten pages.old.items) id value }
    ensures strain { strain pages.new.items ≤ strain pages.old.items + 1 }
    ensures filled { AllFilled pages.new.items }
    ensures dense { AreDense pages.new.items }
    ensures len { vec_len pages.new ≡ vec_len pages.old }
    ensures capacity { vec_capacity pages.new ≡ vec_capacity pages.old }
{
    pages[at.0].insert(at.1, id, value);
}

/// A new pair, where its page is full.
fn put_beside<T: Drop>(pages: &mut Vec<Page<T>>, k: usize, id: LspId, value: T, empty: Page<T>)
    requires home { IsHome pages.old.items (lsp_number id) k }
    requires full { length (slice_index_or pages.old.items k []) ≡ 64 }
    requires filled { AllFilled pages.old.items }
    requires dense { AreDense pages.old.items }
    requires rises { RisesFrom 0 (flatten pages.old.items) }
    requires none { empty ≡ [] }
    requires room { vec_len pages.old < vec_capacity pages.old }
    ensures all { flatten pages.new.items ≡ put (flatten pages.old.items) id value }
    ensures strain { strain pages.new.items + 31 ≤ strain pages.old.items }
    ensures filled { AllFilled pages.new.items }
    ensures dense { AreDense pages.new.items }
    ensures len { vec_len pages.new ≡ vec_len pages.old + 1 }
    ensures capacity { vec_capacity pages.new ≡ vec_capacity pages.old }
{
    let half = split_page(pages, k, id.to_number(), empty);
    pages[half].put(id, value);
}

/// Splits a full page in two, and answers the one of them where the pair of this number would go.
fn split_page<T>(pages: &mut Vec<Page<T>>, k: usize, n: u64, mut upper: Page<T>) -> usize
    requires home { IsHome pages.old.items n k }
    requires full { length (slice_index_or pages.old.items k []) ≡ 64 }
    requires filled { AllFilled pages.old.items }
    requires dense { AreDense pages.old.items }
    requires rises { RisesFrom 0 (flatten pages.old.items) }
    requires none { upper ≡ [] }
    requires room { vec_len pages.old < vec_capacity pages.old }
    ensures all { flatten pages.new.items ≡ flatten pages.old.items }
    ensures strain { strain pages.new.items + 32 ≤ strain pages.old.items }
    ensures filled { AllFilled pages.new.items }
    ensures dense { AreDense pages.new.items }
    ensures home { IsHome pages.new.items n result }
    ensures room { length (slice_index_or pages.new.items result []) < 64 }
    ensures len { vec_len pages.new ≡ vec_len pages.old + 1 }
    ensures capacity { vec_capacity pages.new ≡ vec_capacity pages.old }
{
    let cut = cut_of(pages, k, n);
    pages[k].split(cut, &mut upper);
    let first = upper.first();
    pages.insert(k + 1, upper).unwrap();
    if n < first {
        return k;
    }
    k + 1
}

/// How many pairs the lower one of two pages keeps. Where pairs come in order, pages are left full
/// behind them.
fn cut_of<T>(pages: &[Page<T>], k: usize, n: u64) -> usize
    requires { k < length pages.now }
    ensures { (result ≡ 32) ⊎ ((result ≡ 63) × (k + 1 ≡ length pages.now)) }
{
    if k + 1 == pages.len() && !pages[k].is_above(n) {
        return PAGE_PAIRS - 1;
    }
    PAGE_PAIRS / 2
}

/// An empty page of those kept.
fn take_page<T>(pool: &mut Vec<Page<T>>) -> Page<T>
    requires some { 0 < vec_len pool.old }
    requires empty { AllEmpty pool.old.items }
    ensures page { result ≡ [] }
    ensures empty { AllEmpty pool.new.items }
    ensures len { vec_len pool.new + 1 ≡ vec_len pool.old }
    ensures capacity { vec_capacity pool.new ≡ vec_capacity pool.old }
{
    pool.pop().unwrap()
}

/// Takes a pair out, and keeps its page where that is empty now.
pub(crate) fn take_out<T>(
    pages: &mut Vec<Page<T>>,
    pool: &mut Vec<Page<T>>,
    at: (usize, usize),
    n: u64,
) -> T
    requires at { IsHeldAt pages.old.items n at }
    requires filled { AllFilled pages.old.items }
    requires dense { AreDense pages.old.items }
    requires empty { AllEmpty pool.old.items }
    requires room { HasRoom (vec_len pages.old) (vec_len pool.old)
        (vec_capacity pages.old) (vec_capacity pool.old) }
    ensures old { find (flatten pages.old.items) n ≡ Some result }
    ensures all { flatten pages.new.items ≡ erase (flatten pages.old.items) n }
    ensures filled { AllFilled pages.new.items }
    ensures dense { AreDense pages.new.items }
    ensures empty { AllEmpty pool.new.items }
    ensures enough { (spare : ℕ) → IsEnough pages.old.items (vec_len pool.old) spare
        → IsEnough pages.new.items (vec_len pool.new) spare }
    ensures room { HasRoom (vec_len pages.new) (vec_len pool.new)
        (vec_capacity pages.new) (vec_capacity pool.new) }
{
    let value = pages[at.0].remove(at.1);
    let left = pages[at.0].len();
    if left > 0 {
        join_beside(pages, pool, at.0);
        return value;
    }
    let page = pages.remove(at.0);
    pool.push_reserved(page);
    value
}

/// Joins a page that has shrunk with the next one or the one before, where both together have at
/// most 32 pairs.
fn join_beside<T>(pages: &mut Vec<Page<T>>, pool: &mut Vec<Page<T>>, k: usize)
    requires inside { k < length pages.old.items }
    requires filled { AllFilled pages.old.items }
    requires nearly { AreNearlyDense pages.old.items k }
    requires empty { AllEmpty pool.old.items }
    requires room { HasRoom (vec_len pages.old) (vec_len pool.old)
        (vec_capacity pages.old) (vec_capacity pool.old) }
    ensures all { flatten pages.new.items ≡ flatten pages.old.items }
    ensures filled { AllFilled pages.new.items }
    ensures dense { AreDense pages.new.items }
    ensures empty { AllEmpty pool.new.items }
    ensures enough { (spare : ℕ) → IsEnough pages.old.items (vec_len pool.old) spare
        → IsEnough pages.new.items (vec_len pool.new) spare }
    ensures room { HasRoom (vec_len pages.new) (vec_len pool.new)
        (vec_capacity pages.new) (vec_capacity pool.new) }
{
    if is_thin(pages, k) {
        join(pages, pool, k);
        return;
    }
    if k == 0 {
        return;
    }
    if is_thin(pages, k - 1) {
        join(pages, pool, k - 1);
    }
}

/// Whether a page and the next one have at most 32 pairs together.
fn is_thin<T>(pages: &[Page<T>], k: usize) -> bool
    requires { k < length pages.now }
    ensures next { result ≡ true → k + 1 < length pages.now }
    ensures yes { result ≡ true → length (slice_index_or pages.now k [])
        + length (slice_index_or pages.now (k + 1) []) ≤ 32 }
    ensures no { result ≡ false → k + 1 < length pages.now
        → 33 ≤ length (slice_index_or pages.now k [])
        + length (slice_index_or pages.now (k + 1) []) }
{
    if k + 1 >= pages.len() {
        return false;
    }
    pages[k].len() + pages[k + 1].len() <= PAGE_PAIRS / 2
}

/// Joins a page with the next one, which is kept then as an empty one.
fn join<T>(pages: &mut Vec<Page<T>>, pool: &mut Vec<Page<T>>, k: usize)
    requires inside { k + 1 < length pages.old.items }
    requires few { length (slice_index_or pages.old.items k [])
        + length (slice_index_or pages.old.items (k + 1) []) ≤ 32 }
    requires filled { AllFilled pages.old.items }
    requires empty { AllEmpty pool.old.items }
    requires room { HasRoom (vec_len pages.old) (vec_len pool.old)
        (vec_capacity pages.old) (vec_capacity pool.old) }
    ensures pages { pages.new.items ≡ joined pages.old.items k }
    ensures all { flatten pages.new.items ≡ flatten pages.old.items }
    ensures filled { AllFilled pages.new.items }
    ensures empty { AllEmpty pool.new.items }
    ensures enough { (spare : ℕ) → IsEnough pages.old.items (vec_len pool.old) spare
        → IsEnough pages.new.items (vec_len pool.new) spare }
    ensures room { HasRoom (vec_len pages.new) (vec_len pool.new)
        (vec_capacity pages.new) (vec_capacity pool.new) }
{
    let mut upper = pages.remove(k + 1);
    pages[k].append(&mut upper);
    pool.push_reserved(upper);
}
