//! A journal: what takes the entries of a history.
ghost use Rattle.std.specs.Prelude.{◌≡◌, ◌≤◌, ℕ, Option, None, OnErr};
ghost use Rattle.isis_edge.specs.Faults.{Rose};
ghost use Rattle.circuit_threads.specs.Told.{Told, told_after};

use crate::entry::JournalEntry;
use isis_base::OutOfMemory;

/// An entry wasn't appended.
#[derive(Clone, Copy, PartialEq, Eq, Debug)]
pub struct AppendFailed;

/// What takes the entries of a history. What it tells is said beside the journal as it was at
/// first. It needn't tell anything.
pub trait Journal {
    // Beside the journal at first, it tells this.
    ghost tells: { Self → Self → Told → Type 0 };
    // The faults so far. A count at its type's last value counts as risen in every call.
    ghost faults: { Self → ℕ };

    /// Takes the memory that the journal can take before an entry is known.
    fn room(&mut self) -> Result<(), OutOfMemory>
        ensures tells { (first : Self) (told : Told) → tells first self.old told
            → tells first self.new told }
        ensures later { faults self.old ≤ faults self.new };

    /// Appends an entry. What is told of appends after one that failed is left open.
    fn append(&mut self, entry: &JournalEntry) -> Result<(), AppendFailed>
        ensures tells { (first : Self) (told : Told) → told.torn ≡ None
            → tells first self.old told
            → tells first self.new (told_after told entry.now result) }
        ensures later { faults self.old ≤ faults self.new }
        ensures cause { OnErr result (Rose (faults self.old) (faults self.new)) };
}
