//! Values that are changed where they stand.
ghost use Rattle.std.specs.Prelude.{◌≡◌, ℕ, ◌+◌, ◌<◌, ◌≤◌, length, slice_get, IfSome, set, vec_len, vec_capacity};
ghost use Rattle.lsp_store.specs.Maps.{change_at, change_all};
ghost use Rattle.lsp_store.specs.Places.{IsHeldAt, AllFilled, flatten};
ghost use Rattle.lsp_store.specs.Rooms.{strain, AreDense};
ghost use Rattle.lsp_store.specs.PageFacts.{change_pages};

use crate::page::Page;
use isis_base::LspId;

/// A change of a value where it stands.
pub trait Change<T> {
    // What a value becomes.
    ghost changed: { Self → T → T };

    /// Changes the value.
    fn change(&self, value: &mut T)
        ensures { value.new ≡ changed self.now value.old };
}

/// Changes the value of a number that is there.
pub(crate) fn change_held<T, C: Change<T>>(
    pages: &mut Vec<Page<T>>,
    at: (usize, usize),
    n: u64,
    change: &C,
)
    requires at { IsHeldAt pages.old.items n at }
    requires filled { AllFilled pages.old.items }
    requires dense { AreDense pages.old.items }
    ensures all { flatten pages.new.items
        ≡ change_at (C.changed change.now) (flatten pages.old.items) n }
    ensures strain { strain pages.new.items ≤ strain pages.old.items }
    ensures filled { AllFilled pages.new.items }
    ensures dense { AreDense pages.new.items }
    ensures len { vec_len pages.new ≡ vec_len pages.old }
    ensures capacity { vec_capacity pages.new ≡ vec_capacity pages.old }
{
    pages[at.0].change(at.1, change);
}

/// Changes all values of the pages.
pub(crate) fn change_each<T, C: Change<T>>(pages: &mut Vec<Page<T>>, change: &C)
    ensures all { pages.new.items ≡ change_pages (C.changed change.now) pages.old.items }
    ensures len { vec_len pages.new ≡ vec_len pages.old }
    ensures capacity { vec_capacity pages.new ≡ vec_capacity pages.old }
{
    let mut place = 0usize;
    while place < pages.len() {
        pages[place].change_all(change);
        place += 1;
    }
}

/// Changes the value of a pair at a place.
pub(crate) fn change_pair<T, C: Change<T>>(pairs: &mut Vec<(LspId, T)>, place: usize, change: &C)
    requires { place < length pairs.old.items }
    ensures new { IfSome (slice_get pairs.old.items place) (λ pair. pairs.new.items
        ≡ set pairs.old.items place (pair.0, C.changed change.now pair.1)) }
    ensures len { vec_len pairs.new ≡ vec_len pairs.old }
    ensures capacity { vec_capacity pairs.new ≡ vec_capacity pairs.old }
{
    change.change(&mut pairs[place].1);
}

/// Changes the values of all pairs.
pub(crate) fn change_pairs<T, C: Change<T>>(pairs: &mut Vec<(LspId, T)>, change: &C)
    ensures new { pairs.new.items ≡ change_all (C.changed change.now) pairs.old.items }
    ensures capacity { vec_capacity pairs.new ≡ vec_capacity pairs.old }
{
    let mut place = 0usize;
    while place < pairs.len() {
        change_pair(pairs, place, change);
        place += 1;
    }
}
