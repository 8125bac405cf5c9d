//! Empty pages that are kept for later pairs: how many are enough, and taking them.
ghost use Rattle.std.specs.Prelude.{◌≡◌, ℕ, ◌+◌, ◌<◌, ◌≤◌, ◌-◌, ◌^◌, ◌⊎◌, [], length, take, drop, max, slice_index_or, vec_len, vec_capacity, OnOk, OnErr, IfOk, IfErr, IsOk, IsSome, MatchResult, MatchOption, None, Some};
ghost use Rattle.isis_base.specs.Identifiers.{lsp_number};
ghost use Rattle.lsp_store.specs.Maps.{RisesFrom, find, put, erase};
ghost use Rattle.lsp_store.specs.Places.{IsHome, IsHeldAt, IsGapAt, IsFreeAt, AllFilled, AllEmpty, HasRoom, flatten};
ghost use Rattle.lsp_store.specs.PageFacts.{first_number};
ghost use Rattle.lsp_store.specs.Rooms.{strain, IsEnough};

use crate::page::{PAGE_PAIRS, Page};
use isis_base::OutOfMemory;
use std::alloc::{AllocError, Global};

/// Sees that one more pair can be put, and answers how many more are spare then.
pub(crate) fn claim<T: Drop>(
    alloc: Global,
    pages: &mut Vec<Page<T>>,
    pool: &mut Vec<Page<T>>,
    len: usize,
    spare: usize,
) -> Result<usize, OutOfMemory>
    requires room { HasRoom (vec_len pages.old) (vec_len pool.old)
        (vec_capacity pages.old) (vec_capacity pool.old) }
    requires empty { AllEmpty pool.old.items }
    requires spared { IsEnough pages.old.items (vec_len pool.old) spare }
    requires fits { len + spare < 2 ^ 64 }
    ensures pages { pages.new.items ≡ pages.old.items }
    ensures room { HasRoom (vec_len pages.new) (vec_len pool.new)
        (vec_capacity pages.new) (vec_capacity pool.new) }
    ensures empty { AllEmpty pool.new.items }
    ensures kept { vec_len pool.old ≤ vec_len pool.new }
    ensures left { IfOk result (λ left. left ≡ spare - 1) }
    ensures some { IfOk result (λ left. IsEnough pages.new.items (vec_len pool.new) (left + 1)) }
    ensures fits { IfOk result (λ left. len + 1 + left < 2 ^ 64) }
    ensures sure { 0 < spare → IsOk result }
{
    if spare > 0 {
        return Ok(spare - 1);
    }
    if len == usize::MAX {
        return Err(OutOfMemory);
    }
    match fill_pool(alloc, pages, pool, 1) {
        Ok(()) => Ok(0),
        Err(_) => Err(OutOfMemory),
    }
}

/// How many empty pages are enough for so many more pairs.
pub(crate) fn pages_for<T>(pages: &[Page<T>], more: usize) -> usize
    ensures { IsEnough pages.now result more }
{
    let strain = strain_of(pages);
    if strain > usize::MAX - more {
        return more;
    }
    let few = (strain + more) / (PAGE_PAIRS / 2);
    if few < more {
        return few;
    }
    more
}

/// Takes empty pages until there are so many.
pub(crate) fn fill_pool<T: Drop>(
    alloc: Global,
    pages: &mut Vec<Page<T>>,
    pool: &mut Vec<Page<T>>,
    more: usize,
) -> Result<(), AllocError>
    requires room { HasRoom (vec_len pages.old) (vec_len pool.old)
        (vec_capacity pages.old) (vec_capacity pool.old) }
    requires empty { AllEmpty pool.old.items }
    ensures pages { pages.new.items ≡ pages.old.items }
    ensures room { HasRoom (vec_len pages.new) (vec_len pool.new)
        (vec_capacity pages.new) (vec_capacity pool.new) }
    ensures empty { AllEmpty pool.new.items }
    ensures kept { vec_len pool.old ≤ vec_len pool.new }
    ensures ok { OnOk result (more ≤ vec_len pool.new) }
    ensures enough { more ≤ vec_len pool.old → IsOk result }
{
    while pool.len() < more {
        match add_page(alloc, pages, pool) {
            Ok(()) => {}
            Err(fault) => return Err(fault),
        }
    }
    Ok(())
}

/// Takes one more empty page.
fn add_page<T: Drop>(
    alloc: Global,
    pages: &mut Vec<Page<T>>,
    pool: &mut Vec<Page<T>>,
) -> Result<(), AllocError>
    requires room { HasRoom (vec_len pages.old) (vec_len pool.old)
        (vec_capacity pages.old) (vec_capacity pool.old) }
    requires empty { AllEmpty pool.old.items }
    ensures pages { pages.new.items ≡ pages.old.items }
    ensures room { HasRoom (vec_len pages.new) (vec_len pool.new)
        (vec_capacity pages.new) (vec_capacity pool.new) }
    ensures empty { AllEmpty pool.new.items }
    ensures ok { OnOk result (vec_len pool.new ≡ vec_len pool.old + 1) }
    ensures err { OnErr result (vec_len pool.new ≡ vec_len pool.old) }
{
    match pages.reserve(pool.len() + 1) {
        Ok(()) => {}
        Err(fault) => return Err(fault),
    }
    match pool.reserve(pages.len() + 1) {
        Ok(()) => {}
        Err(fault) => return Err(fault),
    }
    match Page::new(alloc) {
        Ok(page) => pool.push_reserved(page),
        Err(fault) => return Err(fault),
    }
    Ok(())
}

/// At least how near pages are to being split.
fn strain_of<T>(pages: &[Page<T>]) -> usize
    ensures { strain pages.now ≤ result }
{
    let mut sum = 32usize;
    let mut left = pages;
    while let [page, more @ ..] = left {
        sum += page.len().saturating_sub(PAGE_PAIRS / 2);
        left = more;
    }
    sum
}
