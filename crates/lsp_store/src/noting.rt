//! Values that are changed where they stand, of which some are noted in the same walk.
ghost use Rattle.std.specs.Prelude.{◌≡◌, ◌<◌, Bool, length, slice_get, IfSome, set, vec_len, vec_capacity, Some, None, if◌then◌else◌};
ghost use Rattle.lsp_store.specs.Maps.{change_all, first_where, first_some};
ghost use Rattle.lsp_store.specs.Places.{flatten};
ghost use Rattle.lsp_store.specs.PageFacts.{change_pages};

use crate::page::Page;
use isis_base::LspId;

/// A change of a value where it stands, which tells whether the value passes a test then.
pub trait Noting<T> {
    // What a value becomes.
    ghost changed: { Self → T → T };

    // Whether a changed value passes.
    ghost noted: { Self → T → Bool };

    /// Changes the value, and answers whether it passes then.
    fn change(&self, value: &mut T) -> bool
        ensures value { value.new ≡ changed self.now value.old }
        ensures noted { result ≡ noted self.now value.new };
}

/// Changes all values of the pages, and answers the first LSP ID whose value passes then.
pub(crate) fn note_each<T, C: Noting<T>>(pages: &mut Vec<Page<T>>, change: &C) -> Option<LspId>
    ensures all { pages.new.items ≡ change_pages (C.changed change.now) pages.old.items }
    ensures first { result ≡ first_where (C.noted change.now) (flatten pages.new.items) }
    ensures len { vec_len pages.new ≡ vec_len pages.old }
    ensures capacity { vec_capacity pages.new ≡ vec_capacity pages.old }
{
    let mut first = None;
    let mut place = 0usize;
    while place < pages.len() {
        first = earlier(first, pages[place].note_all(change));
        place += 1;
    }
    first
}

/// Changes the values of all pairs, and answers the first LSP ID whose value passes then.
pub(crate) fn note_pairs<T, C: Noting<T>>(pairs: &mut Vec<(LspId, T)>, change: &C) -> Option<LspId>
    ensures new { pairs.new.items ≡ change_all (C.changed change.now) pairs.old.items }
    ensures first { result ≡ first_where (C.noted change.now) pairs.new.items }
    ensures capacity { vec_capacity pairs.new ≡ vec_capacity pairs.old }
{
    let mut first = None;
    let mut place = 0usize;
    while place < pairs.len() {
        first = earlier(first, note_pair(pairs, place, change));
        place += 1;
    }
    first
}

/// Changes the value of a pair at a place, and answers its LSP ID where the value passes then.
fn note_pair<T, C: Noting<T>>(
    pairs: &mut Vec<(LspId, T)>,
    place: usize,
    change: &C,
) -> Option<LspId>
    requires { place < length pairs.old.items }
    ensures new { IfSome (slice_get pairs.old.items place) (λ pair. pairs.new.items
        ≡ set pairs.old.items place (pair.0, C.changed change.now pair.1)) }
    ensures first { IfSome (slice_get pairs.old.items place) (λ pair. result
        ≡ (if C.noted change.now (C.changed change.now pair.1) then Some pair.0 else None)) }
    ensures len { vec_len pairs.new ≡ vec_len pairs.old }
    ensures capacity { vec_capacity pairs.new ≡ vec_capacity pairs.old }
{
    let id = pairs[place].0;
    if change.change(&mut pairs[place].1) {
        return Some(id);
    }
    None
}

/// The first answer, or else the second.
fn earlier(first: Option<LspId>, second: Option<LspId>) -> Option<LspId>
    ensures { result ≡ first_some first second }
{
    match first {
        Some(id) => Some(id),
        None => second,
    }
}
