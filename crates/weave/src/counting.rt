//! The first entry that wasn't made, by how many moves of each router were made.
ghost use Rattle.std.specs.Prelude.{◌≡◌, ◌+◌, ◌^◌, ◌<◌, ◌∷◌, [], ◌++◌, ℕ, List, length, Some, IfOk, IfSome, IfNone};
ghost use Rattle.std.specs.List.{AllByRecursion};
ghost use Rattle.model_router.specs.Places.{nth, with_nth};
ghost use Rattle.weave_replay.specs.declared.journal.WovenJournal as woven;
ghost use Rattle.weave.specs.Counts.{AreCounted, AreAhead, IsFoundIn, IsFound};

use crate::plans::Plan;
use isis_base::OutOfMemory;
use std::alloc::Global;
use weave_core::Track;
use weave_replay::WovenJournal;

/// The first entry that wasn't made, by journal and entry, both counted from 1; `None` where all
/// were.
pub(crate) fn first_left(
    alloc: Global,
    plans: &[Plan<'_>],
    left: &[Track],
    journals: &[WovenJournal],
) -> Result<Option<(usize, u64)>, OutOfMemory>
    requires size { length left.now ≡ length plans.now }
    requires there { AllByRecursion (λ j. j.router < length plans.now) journals.now }
    ensures { IfOk result (λ found. (made : List ℕ) × AreCounted plans.now left.now made
        × IsFound made journals.now found) }
{
    let mut made = made_of(alloc, plans, left)?;
    Ok(first_behind(&mut made, journals))
}

/// How many moves of each router were made.
fn made_of(alloc: Global, plans: &[Plan<'_>], left: &[Track]) -> Result<Vec<usize>, OutOfMemory>
    requires { length left.now ≡ length plans.now }
    ensures { IfOk result (λ made. AreCounted plans.now left.now made.items) }
{
    let mut made = Vec::new(alloc);
    for router in 0..plans.len() {
        made.push(plans[router].left().saturating_sub(left[router].left()))?;
    }
    Ok(made)
}

/// The first entry behind those of each router that were made.
fn first_behind(made: &mut [usize], journals: &[WovenJournal]) -> Option<(usize, u64)>
    requires { AllByRecursion (λ j. j.router < length made.old) journals.now }
    ensures { IsFound made.old journals.now result }
{
    for place in 0..journals.len() {
        match first_in(made, &journals[place]) {
            Some(first) => return Some((place + 1, first as u64 + 1)),
            None => {}
        }
    }
    None
}

/// The first entry of a journal behind those that were made; where there is none, what was made
/// behind the journal and the restart there.
fn first_in(ahead: &mut [usize], journal: &WovenJournal) -> Option<usize>
    requires { journal.now.router < length ahead.old }
    ensures size { length ahead.new ≡ length ahead.old }
    ensures few { IfSome result (λ first. first + 1 < 2 ^ 64) }
    ensures found { (made : List ℕ) (before : List woven.WovenJournal)
        → AreAhead made before ahead.old → IsFoundIn made before journal.now result }
    ensures goes_on { IfNone result ((made : List ℕ) (before : List woven.WovenJournal)
        → AreAhead made before ahead.old → AreAhead made (before ++ journal.now ∷ []) ahead.new) }
{
    let made = count_at(ahead, journal.router);
    let entries = journal.entries.len();
    if made < entries {
        return Some(made);
    }
    put_at(ahead, journal.router, (made - entries).saturating_sub(1));
    None
}

/// The count at a place.
fn count_at(counts: &[usize], place: usize) -> usize
    requires { place < length counts.now }
    ensures { nth counts.now place ≡ Some result }
{
    counts[place]
}

/// Another count at a place.
fn put_at(counts: &mut [usize], place: usize, count: usize)
    requires { place < length counts.old }
    ensures { counts.new ≡ with_nth counts.old place count }
{
    counts[place] = count;
}
