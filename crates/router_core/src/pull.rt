//! What is due on a circuit is sent.
ghost use Rattle.std.specs.Prelude.{◌≡◌, ◌≤◌, ◌<◌, ◌-◌, ◌^◌, ◌++◌, ◌==◌, ◌&&◌, ℕ, Bool, length, map, nat_lt, OnOk, IfOk, IfSome};
ghost use Rattle.model_router.specs.Both.{at};
ghost use Rattle.model_router.specs.Configs.{Config};
ghost use Rattle.model_router.specs.Events as event;
ghost use Rattle.model_router.specs.Good.{IsGoodBook};
ghost use Rattle.model_router.specs.Places.{nth};
ghost use Rattle.model_router.specs.Pulls.{is_csnp_due};
ghost use Rattle.model_router.specs.Routers.{Router};
ghost use Rattle.model_router.specs.SnpLists.{owed};
ghost use Rattle.model_router.specs.Steps.{step};
ghost use Rattle.model_datagram.specs.Datagrams.{datagram};
ghost use Rattle.flag_sync.specs.BookStates.{book_of, IsCircuit};
ghost use Rattle.router_sending.specs.Sends.{Sends, FitAreas};
ghost use Rattle.router_core.specs.Due.{IsDue, IsLevelDue};
ghost use Rattle.router_core.specs.Events.{IsThere};
ghost use Rattle.router_core.specs.Givens.{given};
ghost use Rattle.router_core.specs.Plans.{IsPlan};
ghost use Rattle.router_core.specs.Pulled as pulled;
ghost use Rattle.router_core.specs.Reached.{IsReached};
ghost use Rattle.router_core.specs.Sending.{all_octets, csnps_due, psnps_due, open_due, all_due, hellos_due, MaySend};
ghost use Rattle.router_core.specs.Settled.{AreTrue};

use crate::datagrams::Datagrams;
use crate::due::{Due, LevelDue};
use crate::hello_sending::put_hellos;
use crate::marks::Marks;
use crate::parts::Parts;
use crate::plan::{Deed, Plan};
use crate::reached::outlook_laws;
use crate::reply::Reply;
use crate::sending::{put_csnps, put_lsps, put_psnps};
use crate::told::Told;
use flag_sync::Book;
use isis_base::{Level, OutOfMemory};
use router_circuits::Circuit;
use router_sending::Sender;
use router_sending::laws::sendable_law;
use std::alloc::Global;

impl Parts {
    /// The plan of a pull: what is due on the circuit is sent (ISO 10589 7.3.15.3 to 7.3.15.5, 7.3.17, 8.2.3, 8.4.1): the
    /// hello, and for each level that is open there the CSNP set, LSPs and PSNPs.
    pub(crate) fn plan_pull<'a>(&self, circuit: u8, marks: Marks) -> Result<Plan<'a>, OutOfMemory>
        requires there { IsThere self.now circuit }
        requires reached { IsReached self.now }
        requires marks { AreTrue marks self.now }
        ensures { (asked : Bool) → IfOk result (IsPlan asked self.now (event.Pull (circuit - 1))) }
    {
        outlook_laws();
        let due = self.due(circuit);
        let out = self.datagrams_due(circuit, due)?;
        Ok(Plan {
            deed: Deed::Pull { circuit, due },
            reply: Reply::Send(out),
            told: Told::Nothing,
            marks: marks.after(),
        })
    }

    /// What was due on a circuit was sent.
    pub(crate) fn pulled(&mut self, circuit: u8, due: Due)
        requires there { IsThere self.old circuit }
        requires reached { IsReached self.old }
        requires due { IsDue self.old (circuit - 1) due }
        ensures { self.new ≡ (step given self.old (event.Pull (circuit - 1))).router }
    {
        self.all_gone(circuit, due);
        self.settle(circuit);
    }

    /// Its parts were sent.
    fn all_gone(&mut self, circuit: u8, due: Due)
        requires there { IsThere self.old circuit }
        requires due { IsDue self.old (circuit - 1) due }
        ensures { self.new ≡ pulled.after_all self.old (circuit - 1) }
    {
        self.hello_gone(circuit, due.hello);
        self.level_gone(circuit, Level::One, due.one);
        self.level_gone(circuit, Level::Two, due.two);
    }

    /// What is due on a circuit, as datagrams.
    fn datagrams_due(&self, circuit: u8, due: Due) -> Result<Datagrams, OutOfMemory>
        requires there { IsThere self.now circuit }
        requires reached { IsReached self.now }
        requires due { IsDue self.now (circuit - 1) due }
        ensures { IfOk result (λ out. IfSome (nth self.now.circuits (circuit - 1)) (λ c. out
            ≡ map (λ says. datagram self.now.config self.now.boot (circuit - 1) c says)
            (all_due self.now (circuit - 1) c))) }
    {
        let mut out = Datagrams::new(self.alloc);
        let sender = self.sender(circuit);
        let on = self.on(circuit);
        sendable_law();
        put_due_hellos(&mut out, self.alloc, &sender, on, due.hello)?;
        let (one, two) = (self.book(Level::One), self.book(Level::Two));
        put_level(&mut out, self.alloc, &sender, on, Level::One, one, due.one)?;
        put_level(&mut out, self.alloc, &sender, on, Level::Two, two, due.two)?;
        Ok(out)
    }
}

/// Adds the hellos of a circuit, where they are due (ISO 10589 8.2.3, 8.4.1).
fn put_due_hellos(
    out: &mut Datagrams,
    alloc: Global,
    sender: &Sender<'_>,
    on: &Circuit,
    due: bool,
) -> Result<(), OutOfMemory>
    requires here { 1 ≤ sender.now.circuit }
    requires areas { FitAreas sender.now }
    requires priority { sender.now.priority ≤ 127 }
    requires boot { sender.now.boot < 2 ^ 24 }
    requires due { due ≡ (on.now.hello == 0) }
    ensures { (r : Router) → Sends sender.now r.config r.boot (sender.now.circuit - 1) on.now
        → OnOk result (out.new ≡ out.old
        ++ all_octets sender.now (hellos_due r (sender.now.circuit - 1) on.now)) }
{
    if due {
        return put_hellos(out, alloc, sender, on);
    }
    Ok(())
}

/// Adds what is due of a level, where the circuit is open on it (ISO 10589 7.3.15.3 to 7.3.15.5).
fn put_level(
    out: &mut Datagrams,
    alloc: Global,
    sender: &Sender<'_>,
    on: &Circuit,
    level: Level,
    book: &Book,
    due: LevelDue,
) -> Result<(), OutOfMemory>
    requires here { IsCircuit sender.now.circuit book.now.circuits }
    requires few { sender.now.circuit ≤ 64 }
    requires good { IsGoodBook (book_of book.now) }
    requires may { MaySend (sender.now.circuit - 1) book.now.store.entries book.now.rows }
    ensures { (config : Config) (boot : ℕ)
        → Sends sender.now config boot (sender.now.circuit - 1) on.now
        → IsLevelDue config (sender.now.circuit - 1) on.now level (book_of book.now) due
        → OnOk result (out.new ≡ out.old ++ all_octets sender.now
        (open_due config (sender.now.circuit - 1) on.now level (book_of book.now))) }
{
    let LevelDue {
        opened,
        csnps,
        psnps,
    } = due;
    if opened {
        put_due_csnps(out, alloc, sender, on, level, book, csnps)?;
        put_lsps(out, alloc, sender, level, book)?;
        return put_due_psnps(out, alloc, sender, on, level, book, psnps);
    }
    Ok(())
}

/// Adds a level's CSNP set, where it is due (ISO 10589 7.3.15.3, 7.3.17).
fn put_due_csnps(
    out: &mut Datagrams,
    alloc: Global,
    sender: &Sender<'_>,
    on: &Circuit,
    level: Level,
    book: &Book,
    due: bool,
) -> Result<(), OutOfMemory>
    requires here { 1 ≤ sender.now.circuit }
    requires good { IsGoodBook (book_of book.now) }
    ensures { (config : Config) (boot : ℕ)
        → Sends sender.now config boot (sender.now.circuit - 1) on.now
        → due ≡ is_csnp_due config (sender.now.circuit - 1) on.now level
        → OnOk result (out.new ≡ out.old ++ all_octets sender.now
        (csnps_due config (sender.now.circuit - 1) on.now level (book_of book.now))) }
{
    if due {
        return put_csnps(out, alloc, sender, level, book);
    }
    Ok(())
}

/// Adds a level's PSNPs, where they are due (ISO 10589 7.3.15.4).
fn put_due_psnps(
    out: &mut Datagrams,
    alloc: Global,
    sender: &Sender<'_>,
    on: &Circuit,
    level: Level,
    book: &Book,
    due: bool,
) -> Result<(), OutOfMemory>
    requires here { IsCircuit sender.now.circuit book.now.circuits }
    requires good { IsGoodBook (book_of book.now) }
    ensures { due ≡ (nat_lt 0 (length (owed (sender.now.circuit - 1) (book_of book.now)))
        && (at on.now.levels level).psnp == 0) → OnOk result (out.new ≡ out.old ++ all_octets sender.now
        (psnps_due (sender.now.circuit - 1) on.now level (book_of book.now))) }
{
    if due {
        return put_psnps(out, alloc, sender, level, book);
    }
    Ok(())
}
