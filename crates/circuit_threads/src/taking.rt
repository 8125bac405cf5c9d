//! One turn behind the lock: an event, and its entry.
ghost use Rattle.std.specs.Prelude.{◌≡◌, ◌+◌, ◌<◌, ◌^◌, ◌++◌, [], ◌∷◌, length, IfOk};
ghost use Rattle.router_core.specs.Events.{Fits};
ghost use Rattle.circuit_threads.specs.Answered.{note_of, IsAnswered};
ghost use Rattle.circuit_threads.specs.Shared.{KeepsPrefixes};
ghost use Rattle.circuit_threads.specs.declared.entry.Note.TheVariants.{Made, Marked};

use crate::behind::Behind;
use crate::entry::{JournalEntry, Note, Receipt, SubmitFault};
use crate::journal::{AppendFailed, Journal};
use isis_base::OutOfMemory;
use note_list::NoteList;
use router_core::NodeEvent;

impl<J: Journal + Drop> Behind<J> {
    /// A pass's event is done, and its entry appended; `copy` is an equal event for the entry.
    /// Where the fault has no receipt nothing was done.
    pub(crate) fn take(
        &mut self,
        pass: u64,
        event: NodeEvent,
        copy: Result<NodeEvent, OutOfMemory>,
    ) -> Result<Receipt, SubmitFault>
        requires room { length self.old.notes.items + 1 < 2 ^ 64 }
        requires fits { Fits self.old.notes.beginning.router.value event }
        requires prefixes { KeepsPrefixes event }
        requires copy { IfOk copy (λ copy. copy ≡ event) }
        ensures beginning { self.new.notes.beginning ≡ self.old.notes.beginning }
        ensures note { self.new.notes.items
            ≡ self.old.notes.items ++ note_of pass event result ∷ [] }
        ensures answer { IsAnswered self.old.notes.beginning.router.value
            self.new.notes.items result }
    {
        if let Some(entry) = self.stop {
            self.add_nothing();
            return Err(SubmitFault::Stopped { entry });
        }
        let Ok(copy) = copy else {
            self.add_nothing();
            return Err(SubmitFault::OutOfMemory);
        };
        if self.take_room().is_err() {
            self.add_nothing();
            return Err(SubmitFault::OutOfMemory);
        }
        let Ok(reply) = self.router.step(event) else {
            self.add_nothing();
            return Err(SubmitFault::OutOfMemory);
        };
        let number = self.last + 1;
        let entry = JournalEntry {
            number,
            pass,
            event: copy,
            reply,
        };
        self.last = number;
        match self.journal.append(&entry) {
            Ok(()) => Ok(note_made(&mut self.notes, entry)),
            Err(AppendFailed) => {
                self.stop = Some(number);
                let receipt = note_marked(&mut self.notes, entry);
                Err(SubmitFault::JournalFault(receipt))
            }
        }
    }
}

/// Notes an entry, and gives its receipt.
fn note_made<B>(notes: &mut NoteList<Note, B>, entry: JournalEntry) -> Receipt
    ensures items { notes.new.items ≡ notes.old.items ++ Made entry ∷ [] }
    ensures beginning { notes.new.beginning ≡ notes.old.beginning }
    ensures receipt { (result.entry ≡ entry.number) × (result.reply ≡ entry.reply) }
{
    let note = Note::Made(entry);
    notes.push(&note);
    match note {
        Note::Made(entry) => entry.receipt(),
        Note::Marked(_entry) => unreachable!(),
        Note::Nothing => unreachable!(),
    }
}

/// Notes an entry whose append failed, and gives its receipt.
fn note_marked<B>(notes: &mut NoteList<Note, B>, entry: JournalEntry) -> Receipt
    ensures items { notes.new.items ≡ notes.old.items ++ Marked entry ∷ [] }
    ensures beginning { notes.new.beginning ≡ notes.old.beginning }
    ensures receipt { (result.entry ≡ entry.number) × (result.reply ≡ entry.reply) }
{
    let note = Note::Marked(entry);
    notes.push(&note);
    match note {
        Note::Marked(entry) => entry.receipt(),
        Note::Made(_entry) => unreachable!(),
        Note::Nothing => unreachable!(),
    }
}
