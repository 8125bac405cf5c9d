//! What each router is to do: the entries of its journals, with a restart between two journals.
ghost use Rattle.std.specs.Prelude.{◌≡◌, ◌≢◌, ◌∷◌, [], ◌++◌, ◌<◌, List, length, map, drop, IfOk, OnOk};
ghost use Rattle.weave_model.specs.Entries.{Entry};
ghost use Rattle.weave_model.specs.Weavings.{entries_before, track_of};
ghost use Rattle.weave_replay.specs.Entries.{entry_of, entries_of};
ghost use Rattle.weave_replay.specs.Replays.{journals_of};
ghost use Rattle.weave.specs.Begins.{tracks_from};
ghost use Rattle.weave.specs.Coded.{has_some};
ghost use Rattle.weave.specs.Moves.{move_of};

use crate::step::Step;
use isis_base::OutOfMemory;
use journal_text::WovenEntry;
use std::alloc::Global;
use std::marker::Model;
use weave_replay::WovenJournal;

/// The steps of a router, in order, and how many of them were made. Contracts see the moves that are
/// left.
#[derive(Drop)]
pub(crate) struct Plan<'a> {
    steps: Vec<Step<'a>>,
    made: usize,
}

impl<'a> Model for Plan<'a> {
    ghost use Rattle.std.specs.Prelude.{List, map, drop};
    ghost use Rattle.weave_model.specs.Weavings.{Move};
    ghost use Rattle.weave.specs.Moves.{move_of};

    ghost Value = { List Move };

    ghost view = { λ p. map move_of (drop p.made p.steps.items) };
}

impl<'a> Plan<'a> {
    /// How many steps are left.
    pub(crate) fn left(&self) -> usize
        ensures { result ≡ length self.now }
    {
        self.steps.len().saturating_sub(self.made)
    }

    /// The next step, which is made now.
    pub(crate) fn take_step(&mut self) -> Step<'a>
        requires { 0 < length self.old }
        ensures { self.old ≡ move_of result ∷ self.new }
    {
        step_behind(&self.steps, &mut self.made)
    }
}

/// The step behind so many, which is made now.
fn step_behind<'a>(steps: &[Step<'a>], made: &mut usize) -> Step<'a>
    requires { made.old < length steps.now }
    ensures { map move_of (drop made.old steps.now)
        ≡ move_of result ∷ map move_of (drop made.new steps.now) }
{
    let step = steps[*made];
    *made += 1;
    step
}

/// The plans of so many routers.
pub(crate) fn plans_of<'a>(
    alloc: Global,
    routers: usize,
    journals: &'a [WovenJournal],
) -> Result<Vec<Plan<'a>>, OutOfMemory>
    ensures { IfOk result (λ plans. plans.items ≡ tracks_from 0 routers journals.now) }
{
    let mut plans = Vec::new(alloc);
    for router in 0..routers {
        match plan_of(alloc, router, journals) {
            Ok(plan) => plans.push(plan)?,
            Err(error) => return Err(error),
        }
    }
    Ok(plans)
}

/// The plan of a router.
fn plan_of<'a>(
    alloc: Global,
    router: usize,
    journals: &'a [WovenJournal],
) -> Result<Plan<'a>, OutOfMemory>
    ensures { IfOk result (λ plan. plan ≡ track_of (journals_of router journals.now)) }
{
    let mut steps = Vec::new(alloc);
    let mut begun = false;
    for place in 0..journals.len() {
        let journal = &journals[place];
        if journal.router == router {
            match add_journal(&mut steps, begun, journal) {
                Ok(()) => begun = true,
                Err(error) => return Err(error),
            }
        }
    }
    Ok(Plan { steps, made: 0 })
}

/// Adds the steps of a journal, behind a restart where the router had one before.
fn add_journal<'a>(
    steps: &mut Vec<Step<'a>>,
    begun: bool,
    journal: &'a WovenJournal,
) -> Result<(), OutOfMemory>
    ensures { OnOk result ((js : List (List Entry)) → begun ≡ has_some js
        → map move_of steps.old.items ≡ track_of js
        → map move_of steps.new.items ≡ track_of (js ++ entries_of journal.now ∷ [])) }
{
    if begun {
        match steps.push(Step::Restart) {
            Ok(()) => {}
            Err(_) => return Err(OutOfMemory),
        }
    }
    add_entries(steps, journal.entries.as_slice())
}

/// Adds entries as steps.
fn add_entries<'a>(steps: &mut Vec<Step<'a>>, entries: &'a [WovenEntry]) -> Result<(), OutOfMemory>
    ensures { OnOk result (map move_of steps.new.items
        ≡ map move_of steps.old.items ++ entries_before (map entry_of entries.now) []) }
{
    for place in 0..entries.len() {
        match steps.push(Step::Entry(&entries[place])) {
            Ok(()) => {}
            Err(_) => return Err(OutOfMemory),
        }
    }
    Ok(())
}
