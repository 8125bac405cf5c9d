//! All journals, replayed in order.
ghost use Rattle.std.specs.Prelude.{◌≡◌, ◌<◌, ◌≤◌, ◌+◌, ◌^◌, ◌∷◌, [], ◌++◌, List, length, replicate, Some, nat_lt, OnOk, IfOk, IfErr, IfSome};
ghost use Rattle.std.specs.List.{AllByRecursion, list_any};
ghost use Rattle.model_router.specs.Places.{nth, with_nth};
ghost use Rattle.model_router.specs.Routers as model;
ghost use Rattle.model_router.specs.Starts.{start};
ghost use Rattle.weave_replay.specs.declared.journal.WovenJournal as woven;
ghost use Rattle.weave_replay.specs.Entries.{entries_of};
ghost use Rattle.weave_replay.specs.Outcomes.{AreCounts, AreBehind, IsReplayedIn, IsReplayedNext};
ghost use Rattle.weave_replay.specs.Replays.{AreFaultless, IsTold, AreReplayed};

use crate::entries::{Replayed, replay_entries};
use crate::fault::ReplayFault;
use crate::journal::WovenJournal;
use crate::sending::send_too_many;
use isis_base::OutOfMemory;
use isis_base::numbers::BOOT_LIMIT;
use lab_keys::LimitName;
use model_router::laws::adjacencies::step_bonds;
use router_core::Router;
use std::alloc::Global;

/// The last boot, and so the most journals of a router (own).
const LAST_BOOT: usize = BOOT_LIMIT as usize;

/// Replays journals in order, the n-th of a router from the opening state with boot n of its
/// configuration as changed so far, at first as it is handed in. The first entry with a fault is
/// told; where there is none, a limit that is passed.
///
/// The routers are left somewhere in their journals.
pub fn replay_journals(
    alloc: Global,
    routers: &mut [Router],
    journals: &[WovenJournal],
) -> Result<(), ReplayFault>
    requires { AllByRecursion (λ j. j.router < length routers.old) journals.now }
    ensures ok { OnOk result (AreReplayed routers.old journals.now) }
    ensures err { IfErr result (λ fault. IsTold routers.old journals.now fault) }
{
    let mut counts = no_counts(alloc, routers.len())?;
    replay_within(routers, &mut counts, journals)
}

/// Replays journals in order; then the limits.
fn replay_within(
    routers: &mut [Router],
    counts: &mut [usize],
    journals: &[WovenJournal],
) -> Result<(), ReplayFault>
    requires there { AllByRecursion (λ j. j.router < length routers.old) journals.now }
    requires none { counts.old ≡ replicate (length routers.old) 0 }
    ensures ok { OnOk result (AreReplayed routers.old journals.now) }
    ensures err { IfErr result (λ fault. IsTold routers.old journals.now fault) }
{
    match replay_all(routers, counts, journals) {
        Ok(()) => {}
        Err(fault) => return Err(fault),
    }
    if are_many(counts) {
        return Err(ReplayFault::Limit(LimitName::Boots));
    }
    if send_too_many(journals) {
        return Err(ReplayFault::Limit(LimitName::Datagrams));
    }
    Ok(())
}

/// No journal of so many routers.
fn no_counts(alloc: Global, routers: usize) -> Result<Vec<usize>, OutOfMemory>
    ensures { IfOk result (λ counts. counts.items ≡ replicate routers 0) }
{
    let counts = vec![in alloc; 0; routers]?;
    Ok(counts)
}

/// Replays journals in order, and counts each router's.
fn replay_all(
    routers: &mut [Router],
    counts: &mut [usize],
    journals: &[WovenJournal],
) -> Result<(), ReplayFault>
    requires there { AllByRecursion (λ j. j.router < length routers.old) journals.now }
    requires none { counts.old ≡ replicate (length routers.old) 0 }
    ensures ok { OnOk result (AreFaultless routers.old journals.now) }
    ensures counts { OnOk result (AreCounts counts.new journals.now) }
    ensures size { length counts.new ≡ length counts.old }
    ensures err { IfErr result (λ fault. IsTold routers.old journals.now fault) }
{
    for place in 0..journals.len() {
        match replay_next(routers, counts, &journals[place]) {
            Ok(Replayed::Good) => {}
            Ok(Replayed::OfEvent(entry)) => {
                return Err(ReplayFault::Event {
                    journal: place + 1,
                    entry: entry as u64,
                });
            }
            Ok(Replayed::OfReply(entry)) => {
                return Err(ReplayFault::Reply {
                    journal: place + 1,
                    entry: entry as u64,
                });
            }
            Err(_) => return Err(ReplayFault::OutOfMemory),
        }
    }
    Ok(())
}

/// Replays the journal that stands behind others, where it has a boot.
fn replay_next(
    routers: &mut [Router],
    counts: &mut [usize],
    journal: &WovenJournal,
) -> Result<Replayed, OutOfMemory>
    requires there { journal.now.router < length routers.old }
    requires same { length counts.old ≡ length routers.old }
    requires few { IfSome (nth counts.old journal.now.router) (λ count. count + 1 < 2 ^ 64) }
    ensures routers { length routers.new ≡ length routers.old }
    ensures size { length counts.new ≡ length counts.old }
    ensures counts { (before : List woven.WovenJournal) → AreCounts counts.old before
        → AreCounts counts.new (before ++ journal.now ∷ []) }
    ensures replayed { IfOk result (λ replayed. (firsts : List model.Router)
        (before : List woven.WovenJournal) → length firsts ≡ length routers.old
        → AreCounts counts.old before → AreBehind firsts routers.old before
        → IsReplayedNext firsts routers.new before journal.now replayed) }
{
    step_bonds();
    let count = count_one(counts, journal.router);
    if count >= LAST_BOOT {
        return Ok(Replayed::Good);
    }
    let boot = count as u32 + 1;
    replay_in(routers, journal.router, boot, journal)
}

/// Whether one of these is above the last boot.
fn are_many(counts: &[usize]) -> bool
    ensures { result ≡ list_any (λ count. nat_lt 16777215 count) counts.now }
{
    counts.iter().any(|count| *count > LAST_BOOT)
}

/// Counts a journal of a router; how many it had before.
fn count_one(counts: &mut [usize], router: usize) -> usize
    requires there { router < length counts.old }
    requires few { IfSome (nth counts.old router) (λ count. count + 1 < 2 ^ 64) }
    ensures before { nth counts.old router ≡ Some result }
    ensures counts { counts.new ≡ with_nth counts.old router (result + 1) }
{
    let count = counts[router];
    counts[router] = count + 1;
    count
}

/// Replays a journal from the opening state of the router at a place, in a boot.
fn replay_in(
    routers: &mut [Router],
    place: usize,
    boot: u32,
    journal: &WovenJournal,
) -> Result<Replayed, OutOfMemory>
    requires there { place < length routers.old }
    requires boot { (1 ≤ boot) × (boot ≤ 16777215) }
    ensures size { length routers.new ≡ length routers.old }
    ensures replayed { IfOk result (λ replayed. IfSome (nth routers.old place)
        (λ r. IsReplayedIn routers.old routers.new place (start r.config boot r.circuits)
        (entries_of journal.now) replayed)) }
{
    let mut router = routers[place].restarted(boot)?;
    match replay_entries(&mut router, journal.entries.as_slice()) {
        Ok(replayed) => {
            put_at(routers, place, router);
            Ok(replayed)
        }
        Err(error) => {
            drop(router);
            Err(error)
        }
    }
}

/// Another value at a place.
fn put_at<T: Drop>(list: &mut [T], place: usize, value: T)
    requires { place < length list.old }
    ensures { list.new ≡ with_nth list.old place value }
{
    list[place] = value;
}
