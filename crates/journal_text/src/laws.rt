//! What is written is read: functions without a body, whose contracts are the laws.
ghost use Rattle.std.specs.Prelude.{◌≡◌, ℕ, List, Option, map};
ghost use Rattle.std.specs.List.{AllByRecursion};
ghost use Rattle.model_router.specs.Routers.{Router};
ghost use Rattle.circuit_threads.specs.declared.entry.JournalEntry.{JournalEntry};
ghost use Rattle.circuit_threads.specs.declared.entry.Note.{Note};
ghost use Rattle.circuit_threads.specs.History.{IsHistory, entries};
ghost use Rattle.circuit_threads.specs.JournalText.{journal_text};
ghost use Rattle.journal_text.specs.Journals.{Good, journal_of};
ghost use Rattle.journal_text.specs.Written.{AreNumbered, IsInRange, entry_read};

/// The text of a journal whose entries are numbered from 1 is read as these entries.
pub fn journal_law()
    ensures { (entries : List JournalEntry) → AreNumbered 1 entries
        → AllByRecursion IsInRange entries
        → journal_of (journal_text entries) ≡ Good (map entry_read entries) }
{}

/// The entries of a router that threads share are numbered from 1.
pub fn numbered_law()
    ensures { (start now : Router) (notes : List Note) (stop : Option ℕ)
        → IsHistory start now notes stop → AreNumbered 1 (entries notes) }
{}
