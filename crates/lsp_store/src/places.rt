//! Where the pair of a number is, or where it would go: by two binary searches.
ghost use Rattle.std.specs.Prelude.{◌≡◌, ℕ, ◌+◌, ◌<◌, ◌≤◌, ◌-◌, ◌^◌, ◌⊎◌, [], length, take, drop, max, slice_index_or, vec_len, vec_capacity, OnOk, OnErr, IfOk, IfErr, IsOk, IsSome, MatchResult, MatchOption, None, Some, true};
ghost use Rattle.isis_base.specs.Identifiers.{lsp_number};
ghost use Rattle.lsp_store.specs.Maps.{RisesFrom, find, put, erase};
ghost use Rattle.lsp_store.specs.Places.{IsHome, IsHeldAt, IsGapAt, IsFreeAt, AllFilled, AllEmpty, HasRoom, flatten};
ghost use Rattle.lsp_store.specs.PageFacts.{first_number};
ghost use Rattle.lsp_store.specs.Rooms.{strain, IsEnough};

use crate::page::Page;

/// Where the pair of this number is, or where it would go: the page and the place in it.
pub(crate) fn search<T>(pages: &[Page<T>], n: u64) -> Result<(usize, usize), (usize, usize)>
    requires filled { AllFilled pages.now }
    requires rises { RisesFrom 0 (flatten pages.now) }
    ensures { MatchResult result (IsHeldAt pages.now n) (IsFreeAt pages.now n) }
{
    if pages.is_empty() {
        return Err((0, 0));
    }
    search_page(pages, home(pages, n), n)
}

/// Where the pair of this number is, or where it would go: near the page that was used last, or else
/// anywhere. Whichever page that is, the answer is the same.
pub(crate) fn search_near<T>(
    pages: &[Page<T>],
    near: usize,
    n: u64,
) -> Result<(usize, usize), (usize, usize)>
    requires filled { AllFilled pages.now }
    requires rises { RisesFrom 0 (flatten pages.now) }
    ensures { MatchResult result (IsHeldAt pages.now n) (IsFreeAt pages.now n) }
{
    if pages.is_empty() {
        return Err((0, 0));
    }
    search_page(pages, home_near(pages, near, n), n)
}

/// The page where a pair of this number is, or where it would go: this one or the next one, or else
/// any.
pub(crate) fn home_near<T>(pages: &[Page<T>], near: usize, n: u64) -> usize
    requires some { 0 < length pages.now }
    requires filled { AllFilled pages.now }
    requires rises { RisesFrom 0 (flatten pages.now) }
    ensures { IsHome pages.now n result }
{
    if is_home(pages, near, n) {
        return near;
    }
    if near < pages.len() && is_home(pages, near + 1, n) {
        return near + 1;
    }
    home(pages, n)
}

/// Where the pair of this number is in its page, or where it would go.
fn search_page<T>(pages: &[Page<T>], page: usize, n: u64) -> Result<(usize, usize), (usize, usize)>
    requires home { IsHome pages.now n page }
    requires rises { RisesFrom 0 (flatten pages.now) }
    ensures { MatchResult result (IsHeldAt pages.now n) (IsFreeAt pages.now n) }
{
    match pages[page].search(n) {
        Ok(place) => Ok((page, place)),
        Err(place) => Err((page, place)),
    }
}

/// Whether this is a page, and the number lies between its first number and that of the next one.
fn is_home<T>(pages: &[Page<T>], page: usize, n: u64) -> bool
    requires filled { AllFilled pages.now }
    requires rises { RisesFrom 0 (flatten pages.now) }
    ensures { result ≡ true → IsHome pages.now n page }
{
    if page >= pages.len() {
        return false;
    }
    if pages[page].first() > n {
        return false;
    }
    if page + 1 == pages.len() {
        return true;
    }
    n < pages[page + 1].first()
}

/// The value of a number that is there.
pub(crate) fn value_at<T>(pages: &[Page<T>], at: (usize, usize), n: u64) -> &T
    requires at { IsHeldAt pages.now n at }
    ensures { find (flatten pages.now) n ≡ Some result.now }
{
    &pages[at.0].pairs()[at.1].1
}

/// The page where a pair of this number is, or where it would go.
fn home<T>(pages: &[Page<T>], n: u64) -> usize
    requires some { 0 < length pages.now }
    requires filled { AllFilled pages.now }
    requires rises { RisesFrom 0 (flatten pages.now) }
    ensures { IsHome pages.now n result }
{
    let above = pages.partition_point(|page| page.first() <= n);
    above.saturating_sub(1)
}
