//! Circuits of a level: opened, closed and pulled.
ghost use Rattle.std.specs.Prelude.{◌≡◌, ◌-◌};
ghost use Rattle.model_router.specs.Openings as openings;
ghost use Rattle.model_router.specs.Hellos.{follow_circuit};
ghost use Rattle.model_router.specs.Pulls.{sent, answered};
ghost use Rattle.flag_sync.specs.BookStates.{book_of, IsCircuit};
ghost use Rattle.router_levels.specs.Views.{state_of, KeepsSpare};

use crate::level_parts::LevelParts;
use flag_sync::{Book, opening_law};

impl LevelParts {
    /// The level follows a circuit: it is closed first where its hello is of another neighbour than
    /// the one that was kept, `anew`; then it is open or not. Closing clears the circuit's flags; a
    /// point-to-point circuit that opens gets SRM for every key (ISO 10589 7.3.17). It takes no
    /// memory.
    pub fn follow(&mut self, circuit: u8, anew: bool, up: bool)
        requires { IsCircuit circuit self.old.book.circuits }
        ensures state { state_of self.new ≡ record (state_of self.old) {
          book = follow_circuit anew (state_of self.old).book (circuit - 1) up;
        } }
        ensures circuits { self.new.book.circuits ≡ self.old.book.circuits }
        ensures spare { KeepsSpare self.old self.new }
    {
        if anew {
            self.book.set_open(circuit, false);
        }
        set_open(&mut self.book, circuit, up);
    }

    /// The LSPs that were due on the circuit are sent (ISO 10589 7.3.15.5): on a LAN their SRM is
    /// cleared, else it waits five seconds. It takes no memory.
    pub fn sent(&mut self, circuit: u8)
        requires { IsCircuit circuit self.old.book.circuits }
        ensures state { state_of self.new ≡ record (state_of self.old) {
          book = sent (state_of self.old).book (circuit - 1);
        } }
        ensures circuits { self.new.book.circuits ≡ self.old.book.circuits }
    {
        self.book.sent_due(circuit);
    }

    /// The sequence number PDUs that were owed on the circuit are sent: its SSN flags are cleared
    /// (ISO 10589 7.3.15.4). It takes no memory.
    pub fn answered(&mut self, circuit: u8)
        requires { IsCircuit circuit self.old.book.circuits }
        ensures state { state_of self.new ≡ record (state_of self.old) {
          book = answered (state_of self.old).book (circuit - 1);
        } }
        ensures circuits { self.new.book.circuits ≡ self.old.book.circuits }
    {
        self.book.answered(circuit);
    }
}

/// A circuit is to be open or not; what is so already stays as it is.
fn set_open(book: &mut Book, circuit: u8, up: bool)
    requires { IsCircuit circuit book.old.circuits }
    ensures book { book_of book.new ≡ openings.set_open (book_of book.old) (circuit - 1) up }
    ensures circuits { book.new.circuits ≡ book.old.circuits }
    ensures store { book.new.store ≡ book.old.store }
{
    if book.is_open(circuit) {
        if !up {
            book.set_open(circuit, false);
        }
        return;
    }
    if up {
        open_up(book, circuit);
    }
}

/// A circuit opens.
fn open_up(book: &mut Book, circuit: u8)
    requires { IsCircuit circuit book.old.circuits }
    ensures book { book_of book.new ≡ openings.open_up (book_of book.old) (circuit - 1) }
    ensures circuits { book.new.circuits ≡ book.old.circuits }
    ensures store { book.new.store ≡ book.old.store }
{
    opening_law();
    let point = book.is_point(circuit);
    book.set_open(circuit, true);
    if point {
        book.mark_all(circuit);
    }
}
