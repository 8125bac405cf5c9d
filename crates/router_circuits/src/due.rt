//! The counters of a circuit, and what is due on it.
ghost use Rattle.std.specs.Prelude.{◌≡◌, ℕ, ◌==◌, List};
ghost use Rattle.model_router.specs.Both.{at};
ghost use Rattle.model_router.specs.Configs.{Config};
ghost use Rattle.model_router.specs.Elections as elections;
ghost use Rattle.model_router.specs.Pulls as pulls;
ghost use Rattle.model_router.specs.Routers.{LanNeighbour};
ghost use Rattle.model_router.specs.Seconds as seconds;
ghost use Rattle.router_circuits.specs.Views.{IsHere, level_in};

use crate::circuit::Circuit;
use crate::timers::Timers;
use isis_base::{Level, SystemId};

/// Seconds between hellos (ISO 10589 8.2.3, 8.4.1).
const HELLO: u8 = 10;

/// Seconds between CSNP sets on a LAN (ISO 10589 7.3.15.3).
const CSNP: u8 = 10;

/// Seconds between PSNPs (ISO 10589 7.3.15.4).
const PSNP: u8 = 2;

impl Circuit {
    /// A second: of all counters, then of all holding times (ISO 10589 8.2.3, 8.2.5, 8.4.1, 8.4.2).
    pub fn second(&mut self)
        ensures { self.new ≡ seconds.circuit_less (seconds.counted self.old) }
    {
        self.count();
        self.hold();
    }

    /// Whether the holding time of an adjacency ends within a second (ISO 10589 8.2.5, 8.4.2).
    pub fn is_ending(&self) -> bool
        ensures { result ≡ seconds.time_over self.now }
    {
        self.medium.is_ending()
    }

    /// A second of all counters.
    fn count(&mut self)
        ensures { self.new ≡ seconds.counted self.old }
    {
        self.hello = self.hello.saturating_sub(1);
        self.one = counted(self.one);
        self.two = counted(self.two);
    }

    /// A second of all holding times: where one ends, its neighbour goes and a hello is due (ISO
    /// 10589 8.2.5, 8.4.2).
    fn hold(&mut self)
        ensures { self.new ≡ seconds.circuit_less self.old }
    {
        if self.medium.second() {
            self.hello = 0;
        }
    }

    /// The CSNP counters stand at 0 where the router isn't designated (own).
    pub fn idle(&mut self, system: SystemId, circuit: u8)
        ensures { (config : Config) (place : ℕ) → IsHere config place system circuit
            → self.new ≡ elections.idle config place self.old }
    {
        let one = self.idled(system, circuit, Level::One);
        let two = self.idled(system, circuit, Level::Two);
        self.one = one;
        self.two = two;
    }

    /// A level's counters then. Who is designated isn't asked where the CSNP counter stands at 0 already.
    fn idled(&self, system: SystemId, circuit: u8, level: Level) -> Timers
        ensures { (config : Config) (place : ℕ) → IsHere config place system circuit
            → level_in (at self.now.levels level).heard result
            ≡ elections.idle_level (elections.is_designated config place self.now level)
            (at self.now.levels level) }
    {
        let timers = self.timers(level);
        if timers.csnp == 0 || self.is_designated(system, circuit, level) {
            return timers;
        }
        Timers { csnp: 0, ..timers }
    }

    /// Whether a hello is due (ISO 10589 8.2.3, 8.4.1).
    pub fn hello_is_due(&self) -> bool
        ensures { result ≡ (self.now.hello == 0) }
    {
        self.hello == 0
    }

    /// A hello was sent: the next one is due in 10 seconds.
    pub fn hello_sent(&mut self)
        ensures { self.new ≡ record self.old { hello = 10 } }
    {
        self.hello = HELLO;
    }

    /// Whether a CSNP set is to be sent (ISO 10589 7.3.15.3, 7.3.17): by the designated system of a
    /// LAN where its counter is 0, on a point-to-point circuit where it came up.
    pub fn is_csnp_due(&self, system: SystemId, circuit: u8, level: Level) -> bool
        ensures { (config : Config) (place : ℕ) → IsHere config place system circuit
            → result ≡ pulls.is_csnp_due config place self.now level }
    {
        let timers = self.timers(level);
        if self.is_lan() {
            return self.is_designated(system, circuit, level) && timers.csnp == 0;
        }
        timers.due
    }

    /// A CSNP set was sent: on a LAN the next one is 10 seconds later, else none is due.
    pub fn csnp_sent(&mut self, level: Level)
        ensures { self.new ≡ pulls.with_part self.old level
            (pulls.csnp_sent self.old.lan (at self.old.levels level)) }
    {
        let sent = csnp_sent(self.timers(level), self.is_lan());
        self.set_timers(level, sent);
    }

    /// Whether PSNPs may be sent (ISO 10589 7.3.15.4).
    pub fn may_answer(&self, level: Level) -> bool
        ensures { result ≡ ((at self.now.levels level).psnp == 0) }
    {
        self.timers(level).psnp == 0
    }

    /// PSNPs were sent: the next ones are 2 seconds later.
    pub fn answer_sent(&mut self, level: Level)
        ensures { self.new ≡ pulls.with_part self.old level
            (record (at self.old.levels level) { psnp = 2 }) }
    {
        let mut timers = self.timers(level);
        timers.psnp = PSNP;
        self.set_timers(level, timers);
    }

    /// A level's counters.
    fn timers(&self, level: Level) -> Timers
        ensures { level_in (at self.now.levels level).heard result ≡ at self.now.levels level }
    {
        match level {
            Level::One => self.one,
            Level::Two => self.two,
        }
    }

    /// Other counters of a level.
    fn set_timers(&mut self, level: Level, timers: Timers)
        ensures { self.new ≡ pulls.with_part self.old level
            (level_in (at self.old.levels level).heard timers) }
    {
        match level {
            Level::One => self.one = timers,
            Level::Two => self.two = timers,
        }
    }
}

/// A level's counters a second later.
fn counted(timers: Timers) -> Timers
    ensures { (heard : List (ℕ × LanNeighbour))
        → level_in heard result ≡ seconds.counted_level (level_in heard timers) }
{
    Timers {
        csnp: timers.csnp.saturating_sub(1),
        psnp: timers.psnp.saturating_sub(1),
        due: timers.due,
    }
}

/// A level's counters after a CSNP set.
fn csnp_sent(timers: Timers, lan: bool) -> Timers
    ensures { (heard : List (ℕ × LanNeighbour))
        → level_in heard result ≡ pulls.csnp_sent lan (level_in heard timers) }
{
    if lan {
        return Timers {
            csnp: CSNP,
            ..timers
        };
    }
    Timers {
        due: false,
        ..timers
    }
}
