//! What lies behind the lock: the router, its journal, and for contracts alone the notes of turns.
ghost use Rattle.std.specs.Prelude.{◌≡◌, ◌≤◌, ◌++◌, [], ◌∷◌, ℕ, length, Option, Some};
ghost use Rattle.std.specs.Option.{option_map};
ghost use Rattle.isis_edge.specs.Faults.{Rose};
ghost use Rattle.router_desk.specs.Desks.{desk_of};
ghost use Rattle.circuit_threads.specs.declared.entry.JournalEntry as declared;
ghost use Rattle.circuit_threads.specs.History.{entries, marked, IsHistory};
ghost use Rattle.circuit_threads.specs.Told.{nothing_told, told_of};
ghost use Rattle.circuit_threads.specs.Shared.{Closed};
ghost use Rattle.circuit_threads.specs.declared.entry.Note.TheVariants.{Nothing};

use crate::entry::Note;
use crate::journal::Journal;
use isis_base::OutOfMemory;
use note_list::NoteList;
use router_core::Router;
use std::snapshot::Snapshot;
use turn_lock::Noted;

/// The router and the journal as they were given, for contracts alone.
#[derive(Drop)]
pub struct Start<J> {
    pub router: Snapshot<Router>,
    pub journal: Snapshot<J>,
}

/// A router and its journal behind a lock.
#[derive(Drop)]
pub struct Behind<J: Journal + Drop> {
    pub(crate) router: Router,
    pub(crate) journal: J,
    /// The number of entries.
    pub(crate) last: u64,
    /// The entry whose append failed.
    pub(crate) stop: Option<u64>,
    pub(crate) notes: NoteList<Note, Start<J>>,
    ghost history: { IsHistory notes.beginning.router.value router notes.items stop },
    ghost counted: { length (entries notes.items) ≡ last },
    ghost stopped: { (n : ℕ) → stop ≡ Some n → n ≡ last },
    ghost mark: { option_map (λ (e : declared.JournalEntry). e.number) (marked notes.items)
        ≡ stop },
    ghost told: { ∥ J.tells notes.beginning.journal.value journal (told_of notes.items) ∥₁ },
    ghost later: { J.faults notes.beginning.journal.value ≤ J.faults journal },
    ghost fault: { (n : ℕ) → stop ≡ Some n
        → Rose (J.faults notes.beginning.journal.value) (J.faults journal) },
    ghost desk: { desk_of router.config router.circuits
        ≡ desk_of notes.beginning.router.value.config notes.beginning.router.value.circuits },
}

impl<J: Journal + Drop> Noted for Behind<J> {
    type Note = Note;

    type Beginning = Start<J>;

    ghost notes = { λ b. b.notes.items };

    ghost beginning = { λ b. b.notes.beginning };
}

impl<J: Journal + Drop> Behind<J> {
    /// A router and a journal at their beginning.
    pub(crate) fn new(router: Router, journal: J) -> Behind<J>
        requires { J.tells journal journal nothing_told }
        ensures router { result.notes.beginning.router.value ≡ router }
        ensures journal { result.notes.beginning.journal.value ≡ journal }
        ensures notes { result.notes.items ≡ [] }
        ensures parts { (result.router ≡ router) × (result.journal ≡ journal) }
    {
        let start = Start {
            router: Snapshot::of(&router),
            journal: Snapshot::of(&journal),
        };
        let notes = NoteList::new(&start);
        Behind {
            router,
            journal,
            last: 0,
            stop: None,
            notes,
        }
    }

    /// The router and the journal.
    pub(crate) fn open(self) -> (Router, J)
        ensures parts { (result.0 ≡ self.router) × (result.1 ≡ self.journal) }
        ensures closed { Closed J.tells J.faults self.notes.beginning self.notes.items
            result.0 result.1 }
    {
        let Behind {
            router,
            journal,
            last: _,
            stop: _,
            notes: _,
        } = self;
        (router, journal)
    }

    /// Takes the memory that the journal can take before an entry is known.
    pub(crate) fn take_room(&mut self) -> Result<(), OutOfMemory>
        ensures parts { (self.new.router ≡ self.old.router) × (self.new.last ≡ self.old.last)
            × (self.new.stop ≡ self.old.stop) }
        ensures items { self.new.notes.items ≡ self.old.notes.items }
        ensures beginning { self.new.notes.beginning ≡ self.old.notes.beginning }
    {
        self.journal.room()
    }

    /// A turn leaves nothing.
    pub(crate) fn add_nothing(&mut self)
        ensures parts { (self.new.last ≡ self.old.last) × (self.new.stop ≡ self.old.stop) }
        ensures items { self.new.notes.items ≡ self.old.notes.items ++ Nothing ∷ [] }
        ensures beginning { self.new.notes.beginning ≡ self.old.notes.beginning }
    {
        self.notes.push(&Note::Nothing);
    }
}
