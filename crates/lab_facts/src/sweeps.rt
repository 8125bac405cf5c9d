//! Ranges of CSNPs by the moments at which they were taken.
ghost use Rattle.std.specs.Prelude.{◌≡◌, ◌∷◌, [], List, OnOk, OnErr, IfOk};
ghost use Rattle.isis_base.specs.Identifiers.{lsp_number};
ghost use Rattle.model_network.specs.Networks.{Taking};
ghost use Rattle.lab_facts.specs.Sweeps.{taking_at, is_whole};
ghost use Rattle.lab_facts.specs.Keeping.{IsKept, IsTold, HasMore, all_covered};

use crate::key::SweepKey;
use isis_base::{LspId, OutOfMemory};
use note_list::NoteList;
use snp_exchange::{Sweep, Swept};
use std::alloc::Global;
use std::collections::BTreeMap;
use std::marker::Model;

/// The ranges that routers took of CSNPs, each with the moment at which it was taken. Contracts see them all, the latest first.
#[derive(Drop)]
pub struct Sweeps {
    alloc: Global,
    streaks: BTreeMap<SweepKey, Streak>,
    taken: NoteList<Taken, u8>,
}

/// What the ranges of one moment cover, and whether that is all LSP IDs.
#[derive(Drop)]
pub(crate) struct Streak {
    sweep: Sweep,
    whole: bool,
}

/// A range that was taken at a moment.
#[derive(Clone, Copy)]
pub(crate) struct Taken {
    key: SweepKey,
    first: LspId,
    last: LspId,
}

impl Model for Sweeps {
    ghost use Rattle.std.specs.Prelude.{List, []};
    ghost use Rattle.model_network.specs.Networks.{Taking};
    ghost use Rattle.lab_facts.specs.Keeping.{taken_after, IsKept};

    ghost Value = { List Taking };

    ghost view = { λ s. taken_after s.taken.items [] };

    ghost invariant = { λ s. IsKept s.streaks (taken_after s.taken.items []) };
}

impl Sweeps {
    /// No range was taken yet. It takes no memory.
    pub fn new(alloc: Global) -> Sweeps
        ensures { result ≡ [] }
    {
        Sweeps {
            alloc,
            streaks: BTreeMap::new(alloc),
            taken: NoteList::new(&0),
        }
    }

    /// A range is taken, from one LSP ID to another, both included. At `OutOfMemory` nothing changed.
    pub fn take(&mut self, key: SweepKey, first: LspId, last: LspId) -> Result<(), OutOfMemory>
        ensures ok { OnOk result (self.new
            ≡ taking_at key (lsp_number first) (lsp_number last) ∷ self.old) }
        ensures err { OnErr result (self.new ≡ self.old) }
    {
        match add_range(self.alloc, &mut self.streaks, key, first, last) {
            Ok(()) => {}
            Err(error) => return Err(error),
        }
        self.taken.push(&Taken { key, first, last });
        Ok(())
    }

    /// Whether the ranges that were taken at a moment cover all LSP IDs (ISO 10589 7.3.15.2).
    pub fn is_whole(&self, key: SweepKey) -> bool
        ensures { result ≡ is_whole key self.now }
    {
        match self.streaks.get(&key) {
            Some(streak) => streak.whole,
            None => false,
        }
    }
}

/// Adds a range to those of its moment.
fn add_range(
    alloc: Global,
    streaks: &mut BTreeMap<SweepKey, Streak>,
    key: SweepKey,
    first: LspId,
    last: LspId,
) -> Result<(), OutOfMemory>
    ensures ok { OnOk result ((takings : List Taking) → IsKept streaks.old takings
        → IsKept streaks.new (taking_at key (lsp_number first) (lsp_number last) ∷ takings)) }
    ensures err { OnErr result ((takings : List Taking) → IsKept streaks.old takings
        → IsKept streaks.new takings) }
{
    if let Some(streak) = streaks.get_mut(&key) {
        return streak.take(first, last);
    }
    let streak = Streak::of(alloc, first, last)?;
    match streaks.insert(key, streak) {
        Ok(_) => Ok(()),
        Err(_) => Err(OutOfMemory),
    }
}

impl Streak {
    /// The ranges of a moment of which this is the first.
    fn of(alloc: Global, first: LspId, last: LspId) -> Result<Streak, OutOfMemory>
        ensures more { IfOk result (λ streak.
            HasMore [] streak.sweep.ranges (lsp_number first) (lsp_number last)) }
        ensures told { IfOk result IsTold }
    {
        let mut sweep = Sweep::new(alloc);
        match sweep.take(first, last, false) {
            Ok(swept) => Ok(Streak {
                sweep,
                whole: is_all(swept),
            }),
            Err(error) => Err(error),
        }
    }

    /// A range more.
    fn take(&mut self, first: LspId, last: LspId) -> Result<(), OutOfMemory>
        ensures more { OnOk result (HasMore self.old.sweep.ranges self.new.sweep.ranges
            (lsp_number first) (lsp_number last)) }
        ensures told { OnOk result (IsTold self.new) }
        ensures err { OnErr result (self.new ≡ self.old) }
    {
        match self.sweep.take(first, last, false) {
            Ok(swept) => {
                self.whole = is_all(swept);
                Ok(())
            }
            Err(error) => Err(error),
        }
    }
}

/// Whether all LSP IDs are covered.
fn is_all(swept: Swept) -> bool
    ensures { result ≡ all_covered swept }
{
    match swept {
        Swept::Whole { .. } => true,
        Swept::Partial => false,
    }
}
