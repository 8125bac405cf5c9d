//! The tracks of all routers.
ghost use Rattle.std.specs.Prelude.{◌≡◌, ◌<◌, ◌∷◌, [], ◌++◌, ℕ, List, length, map, IfOk, OnOk};
ghost use Rattle.std.specs.List.{AllByRecursion};
ghost use Rattle.weave_model.specs.Entries.{Entry};
ghost use Rattle.weave.specs.Coded.{HavePorts, HavePortsOf, AreLettered, AreLetteredOf, HavePortsAll, AreLetteredAll, AreCoded, AreAllCoded, AreAdded, has_some};
ghost use Rattle.weave_replay.specs.Entries.{entry_of, entries_of};
ghost use Rattle.weave_replay.specs.Replays.{journals_of};

use crate::entry_moves::{move_of, quiet};
use crate::takes::add_all;
use isis_base::OutOfMemory;
use std::alloc::Global;
use weave_core::{LetterBook, Move, Track};
use weave_replay::{WovenEntry, WovenJournal};

/// The tracks of routers by letters, one for each router, by the links of its circuits.
pub(crate) fn code_journals(
    alloc: Global,
    ports: &[Vec<usize>],
    journals: &[WovenJournal],
) -> Result<Vec<Track>, OutOfMemory>
    requires there { AllByRecursion (λ j. j.router < length ports.now) journals.now }
    requires on { HavePortsAll (map (λ row. row.items) ports.now) journals.now }
    ensures { IfOk result (λ tracks. (wires : List (ℕ × List ℕ))
        × AreAllCoded wires (map (λ row. row.items) ports.now) journals.now tracks.items) }
{
    let mut book = LetterBook::new(alloc);
    match add_all(&mut book, ports, journals) {
        Ok(()) => {}
        Err(error) => return Err(error),
    }
    code_all(alloc, &book, ports, journals)
}

/// The tracks of routers by the letters of a book.
fn code_all(
    alloc: Global,
    book: &LetterBook<'_>,
    ports: &[Vec<usize>],
    journals: &[WovenJournal],
) -> Result<Vec<Track>, OutOfMemory>
    requires on { HavePortsAll (map (λ row. row.items) ports.now) journals.now }
    requires lettered { AreLetteredAll book.now (map (λ row. row.items) ports.now) journals.now }
    ensures { IfOk result (λ tracks. AreAllCoded book.now (map (λ row. row.items) ports.now)
        journals.now tracks.items) }
{
    let mut tracks = Vec::new(alloc);
    for router in 0..ports.len() {
        match code_router(alloc, book, ports[router].as_slice(), router, journals) {
            Ok(track) => tracks.push(track)?,
            Err(error) => return Err(error),
        }
    }
    Ok(tracks)
}

/// The track of a router.
fn code_router(
    alloc: Global,
    book: &LetterBook<'_>,
    ports: &[usize],
    router: usize,
    journals: &[WovenJournal],
) -> Result<Track, OutOfMemory>
    requires on { HavePortsOf ports.now router journals.now }
    requires lettered { AreLetteredOf book.now ports.now router journals.now }
    ensures { IfOk result (λ track. AreCoded book.now ports.now router
        (journals_of router journals.now) track) }
{
    let mut moves = Vec::new(alloc);
    let mut begun = false;
    for place in 0..journals.len() {
        let journal = &journals[place];
        if journal.router == router {
            match add_journal(alloc, &mut moves, begun, book, ports, journal) {
                Ok(()) => begun = true,
                Err(error) => return Err(error),
            }
        }
    }
    Ok(Track::new(moves))
}

/// Adds the moves of a journal, behind a restart where the router had one before.
fn add_journal(
    alloc: Global,
    moves: &mut Vec<Move>,
    begun: bool,
    book: &LetterBook<'_>,
    ports: &[usize],
    journal: &WovenJournal,
) -> Result<(), OutOfMemory>
    requires on { HavePorts ports.now (entries_of journal.now) }
    requires lettered { AreLettered book.now ports.now (entries_of journal.now) }
    ensures { OnOk result ((router : ℕ) (js : List (List Entry)) → begun ≡ has_some js
        → AreCoded book.now ports.now router js moves.old.items
        → AreCoded book.now ports.now router (js ++ entries_of journal.now ∷ []) moves.new.items) }
{
    if begun {
        match moves.push(quiet(alloc)) {
            Ok(()) => {}
            Err(_) => return Err(OutOfMemory),
        }
    }
    add_entries(alloc, moves, book, ports, journal.entries.as_slice())
}

/// Adds the moves of entries.
fn add_entries(
    alloc: Global,
    moves: &mut Vec<Move>,
    book: &LetterBook<'_>,
    ports: &[usize],
    entries: &[WovenEntry],
) -> Result<(), OutOfMemory>
    requires on { HavePorts ports.now (map entry_of entries.now) }
    requires lettered { AreLettered book.now ports.now (map entry_of entries.now) }
    ensures { OnOk result (AreAdded book.now ports.now (map entry_of entries.now)
        moves.old.items moves.new.items) }
{
    for place in 0..entries.len() {
        let next = match move_of(alloc, book, ports, &entries[place]) {
            Ok(next) => next,
            Err(error) => return Err(error),
        };
        match moves.push(next) {
            Ok(()) => {}
            Err(_) => return Err(OutOfMemory),
        }
    }
    Ok(())
}
