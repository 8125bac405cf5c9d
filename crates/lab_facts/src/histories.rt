//! What the routers of a network held live of their own LSP IDs, after each event.
ghost use Rattle.std.specs.Prelude.{◌≡◌, false, [], ◌∷◌, List, OnOk, OnErr};
ghost use Rattle.flag_sync.specs.Walks.{numbers_of};
ghost use Rattle.model_router.specs.Routers.{Router as ModelRouter};
ghost use Rattle.lab_facts.specs.Sightings.{doubled_in, sightings_of, Remembers};
ghost use Rattle.lab_facts.specs.Seen.{IsSeen, AreEnough};
ghost use Rattle.lab_facts.specs.Entries.{Keep};

use crate::history::History;
use crate::levels_to_see::LevelsToSee;
use isis_base::{Level, LspId, OutOfMemory};
use note_list::NoteList;
use router_core::{Keeping, Parts, Router};
use std::alloc::Global;
use std::marker::Model;

/// What the routers of a network held live of their own LSP IDs in the states that they were in. Contracts see these
/// states, the latest first.
#[derive(Drop)]
pub struct Histories {
    alloc: Global,
    one: History,
    two: History,
    past: NoteList<Parts, u8>,
}

impl Model for Histories {
    ghost use Rattle.std.specs.Prelude.{List, []};
    ghost use Rattle.model_router.specs.Routers as model;
    ghost use Rattle.lab_facts.specs.Entries.{past_after, Keep};

    ghost Value = { List model.Router };

    ghost view = { λ h. past_after h.past.items [] };

    ghost invariant = { λ h. Keep h.one h.two (past_after h.past.items []) };
}

impl Histories {
    /// No router was seen yet. It takes no memory.
    pub fn new(alloc: Global) -> Histories
        ensures { result ≡ [] }
    {
        Histories {
            alloc,
            one: History::new(alloc),
            two: History::new(alloc),
            past: NoteList::new(&0),
        }
    }

    /// Sees a router's state after an event. At `OutOfMemory` all that was seen is forgotten.
    pub fn note<K: Keeping>(&mut self, router: &Router<K>) -> Result<(), OutOfMemory>
        ensures ok { OnOk result (self.new ≡ router.now ∷ self.old) }
        ensures err { OnErr result (self.new ≡ []) }
    {
        let both = LevelsToSee {
            one: true,
            two: true,
        };
        self.note_after(router, both)
    }

    /// The same after an event of which it is known that these levels are enough: what the router holds live of its own
    /// LSP IDs of each other level was all seen before.
    pub fn note_after<K: Keeping>(
        &mut self,
        router: &Router<K>,
        levels: LevelsToSee,
    ) -> Result<(), OutOfMemory>
        requires { AreEnough levels self.old router.now }
        ensures ok { OnOk result (self.new ≡ router.now ∷ self.old) }
        ensures err { OnErr result (self.new ≡ []) }
    {
        match note_levels(&mut self.one, &mut self.two, router, levels) {
            Ok(()) => {}
            Err(error) => {
                self.one = History::new(self.alloc);
                self.two = History::new(self.alloc);
                self.past = NoteList::new(&0);
                return Err(error);
            }
        }
        self.past.push(router.parts());
        Ok(())
    }

    /// The LSP IDs of a level that are doubled, in order: a router of their system held two contents live under one
    /// number.
    pub fn doubled(&self, level: Level) -> &[LspId]
        ensures { numbers_of result.now ≡ doubled_in self.now level }
    {
        match level {
            Level::One => self.one.doubled(),
            Level::Two => self.two.doubled(),
        }
    }
}

/// Both levels see a router's state, where they are looked at.
fn note_levels<K: Keeping>(
    one: &mut History,
    two: &mut History,
    router: &Router<K>,
    levels: LevelsToSee,
) -> Result<(), OutOfMemory>
    ensures { OnOk result ((past : List ModelRouter) → AreEnough levels past router.now
        → Keep one.old two.old past → Keep one.new two.new (router.now ∷ past)) }
{
    note_level(one, router, Level::One, levels.one)?;
    note_level(two, router, Level::Two, levels.two)
}

/// A level sees a router's state, where it is looked at.
fn note_level<K: Keeping>(
    history: &mut History,
    router: &Router<K>,
    level: Level,
    looked_at: bool,
) -> Result<(), OutOfMemory>
    ensures { OnOk result ((past : List ModelRouter)
        → (looked_at ≡ false → IsSeen past level router.now)
        → Remembers history.old (sightings_of past level)
        → Remembers history.new (sightings_of (router.now ∷ past) level)) }
{
    if looked_at {
        let system = router.desk().system();
        let book = router.database(level);
        book.flag_pages();
        return history.note(system, book);
    }
    Ok(())
}
