//! What is due on a circuit: each question is asked once, before anything is sent.
ghost use Rattle.std.specs.Prelude.{◌≡◌, ◌-◌, nat_lt, length, Some};
ghost use Rattle.model_router.specs.Places.{nth};
ghost use Rattle.model_router.specs.SnpLists.{owed};
ghost use Rattle.flag_sync.specs.BookStates as books;
ghost use Rattle.router_core.specs.Due.{IsDue, IsDueAt};
ghost use Rattle.router_core.specs.Events.{IsThere};

use crate::parts::Parts;
use flag_sync::Book;
use isis_base::Level;
use router_circuits::Circuit;

/// Whether a circuit is open for a level, and whether the level's CSNP set and PSNPs are due there, if it is.
#[derive(Clone, Copy)]
pub(crate) struct LevelDue {
    pub(crate) opened: bool,
    pub(crate) csnps: bool,
    pub(crate) psnps: bool,
}

/// Whether the hello of a circuit is due, and what is due of each level. LSPs tell by their flags.
#[derive(Clone, Copy)]
pub(crate) struct Due {
    pub(crate) hello: bool,
    pub(crate) one: LevelDue,
    pub(crate) two: LevelDue,
}

impl Parts {
    /// What is due on a circuit (ISO 10589 7.3.15.3, 7.3.15.4, 7.3.17, 8.2.3, 8.4.1).
    pub(crate) fn due(&self, circuit: u8) -> Due
        requires { IsThere self.now circuit }
        ensures { IsDue self.now (circuit - 1) result }
    {
        let hello = self.on(circuit).hello_is_due();
        let one = self.level_due(circuit, Level::One);
        let two = self.level_due(circuit, Level::Two);
        Due { hello, one, two }
    }

    /// What is due of a level.
    fn level_due(&self, circuit: u8, level: Level) -> LevelDue
        requires { IsThere self.now circuit }
        ensures { IsDueAt self.now (circuit - 1) level result }
    {
        let on = self.on(circuit);
        let book = self.book(level);
        LevelDue {
            opened: book.is_open(circuit),
            csnps: on.is_csnp_due(self.desk.system(), circuit, level),
            psnps: is_owed(book, circuit) && on.may_answer(level),
        }
    }

    /// The circuit of a number.
    pub(crate) fn on(&self, circuit: u8) -> &Circuit
        requires { IsThere self.now circuit }
        ensures { nth self.now.circuits (circuit - 1) ≡ Some result.now }
    {
        &self.circuits[usize::from(circuit) - 1]
    }
}

/// Whether something is owed on a circuit.
fn is_owed(book: &Book, circuit: u8) -> bool
    requires { books.IsCircuit circuit book.now.circuits }
    ensures { result ≡ nat_lt 0 (length (owed (circuit - 1) (books.book_of book.now))) }
{
    let mut owed = book.said_owed(circuit);
    match owed.next() {
        Some(_) => true,
        None => false,
    }
}
