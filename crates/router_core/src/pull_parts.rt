//! What becomes of a router as it sends what is due on a circuit.
ghost use Rattle.std.specs.Prelude.{◌≡◌, ◌-◌, ◌==◌, ◌&&◌, nat_lt, length, IfSome};
ghost use Rattle.model_router.specs.Both.{at};
ghost use Rattle.model_router.specs.Places.{nth};
ghost use Rattle.model_router.specs.Pulls as pulls;
ghost use Rattle.model_router.specs.Routers.{book_of, with_book, with_circuit};
ghost use Rattle.model_router.specs.SnpLists.{owed};
ghost use Rattle.flag_sync.specs.BookStates as books;
ghost use Rattle.router_core.specs.Due.{IsDueAt};
ghost use Rattle.router_core.specs.Events.{IsThere};
ghost use Rattle.router_core.specs.Pulled as pulled;

use crate::at::{answer_sent_at, csnp_sent_at, hello_sent_at};
use crate::due::LevelDue;
use crate::parts::Parts;
use flag_sync::Book;
use isis_base::Level;

impl Parts {
    /// What is held of a level with its flags.
    pub(crate) fn book(&self, level: Level) -> &Book
        ensures book { books.book_of result.now ≡ book_of self.now level }
        ensures circuits { result.now.circuits ≡ length self.now.circuits }
    {
        match level {
            Level::One => self.one.book(),
            Level::Two => self.two.book(),
        }
    }

    /// A hello was sent.
    fn hello_sent(&mut self, circuit: u8)
        requires { IsThere self.old circuit }
        ensures { IfSome (nth self.old.circuits (circuit - 1)) (λ c. self.new
            ≡ with_circuit self.old (circuit - 1) (record c { hello = 10 })) }
    {
        hello_sent_at(&mut self.circuits, circuit);
    }

    /// A level's CSNP set was sent.
    fn csnps_sent(&mut self, circuit: u8, level: Level)
        requires { IsThere self.old circuit }
        ensures { IfSome (nth self.old.circuits (circuit - 1)) (λ c. self.new
            ≡ with_circuit self.old (circuit - 1)
            (pulls.with_part c level (pulls.csnp_sent c.lan (at c.levels level)))) }
    {
        csnp_sent_at(&mut self.circuits, circuit, level);
    }

    /// A level's PSNPs were sent.
    fn answer_sent(&mut self, circuit: u8, level: Level)
        requires { IsThere self.old circuit }
        ensures { IfSome (nth self.old.circuits (circuit - 1)) (λ c. self.new
            ≡ with_circuit self.old (circuit - 1)
            (pulls.with_part c level (record (at c.levels level) { psnp = 2 }))) }
    {
        answer_sent_at(&mut self.circuits, circuit, level);
    }

    /// The LSPs of a level that were due are sent.
    fn lsps_sent(&mut self, circuit: u8, level: Level)
        requires { IsThere self.old circuit }
        ensures { self.new
            ≡ with_book self.old level (pulls.sent (book_of self.old level) (circuit - 1)) }
    {
        match level {
            Level::One => self.one.sent(circuit),
            Level::Two => self.two.sent(circuit),
        }
    }

    /// What was owed of a level is said.
    fn answered(&mut self, circuit: u8, level: Level)
        requires { IsThere self.old circuit }
        ensures { self.new ≡ with_book self.old level
            (pulls.answered (book_of self.old level) (circuit - 1)) }
    {
        match level {
            Level::One => self.one.answered(circuit),
            Level::Two => self.two.answered(circuit),
        }
    }

    /// A hello was sent, where one was due.
    pub(crate) fn hello_gone(&mut self, circuit: u8, due: bool)
        requires there { IsThere self.old circuit }
        requires due { IfSome (nth self.old.circuits (circuit - 1)) (λ c. due ≡ (c.hello == 0)) }
        ensures { self.new ≡ pulled.after_hello self.old (circuit - 1) }
    {
        if due {
            self.hello_sent(circuit);
        }
    }

    /// A level's CSNP set was sent, where it was due.
    fn csnps_gone(&mut self, circuit: u8, level: Level, due: bool)
        requires there { IsThere self.old circuit }
        requires due { IfSome (nth self.old.circuits (circuit - 1))
            (λ c. due ≡ pulls.is_csnp_due self.old.config (circuit - 1) c level) }
        ensures { self.new ≡ pulled.after_csnps self.old (circuit - 1) level }
    {
        if due {
            self.csnps_sent(circuit, level);
        }
    }

    /// A level's PSNPs were sent, where they were due.
    fn psnps_gone(&mut self, circuit: u8, level: Level, due: bool)
        requires there { IsThere self.old circuit }
        requires due { IfSome (nth self.old.circuits (circuit - 1)) (λ c. due
            ≡ (nat_lt 0 (length (owed (circuit - 1) (book_of self.old level)))
            && (at c.levels level).psnp == 0)) }
        ensures { self.new ≡ pulled.after_psnps self.old (circuit - 1) level }
    {
        if due {
            self.answer_sent(circuit, level);
            self.answered(circuit, level);
        }
    }

    /// What was due of a level on a circuit was sent, where the circuit is open on it.
    pub(crate) fn level_gone(&mut self, circuit: u8, level: Level, due: LevelDue)
        requires there { IsThere self.old circuit }
        requires due { IsDueAt self.old (circuit - 1) level due }
        ensures { self.new ≡ pulled.after_level self.old (circuit - 1) level }
    {
        let LevelDue {
            opened,
            csnps,
            psnps,
        } = due;
        if opened {
            self.csnps_gone(circuit, level, csnps);
            self.lsps_sent(circuit, level);
            self.psnps_gone(circuit, level, psnps);
        }
    }
}
