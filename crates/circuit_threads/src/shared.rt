//! The shared router.
ghost use Rattle.std.specs.Prelude.{◌≡◌, ◌+◌, ◌<◌, ◌≤◌, ◌^◌, IfOk, IfErr, IsOkAnd};
ghost use Rattle.router_desk.specs.Desks.{desk_of};
ghost use Rattle.router_core.specs.Events.{Fits};
ghost use Rattle.turn_lock.specs.Passes.{turns_left, label, splits, seen, IsFirst, OwnsSeen, OwnsAll, KeepsRest, IsSplitOff, JoinsInto};
ghost use Rattle.circuit_threads.specs.Answered.{note_of, pass_of, answer_of, IsAnswered};
ghost use Rattle.circuit_threads.specs.Shared.{start_at, first_desk, KeepsPrefixes, Closed};
ghost use Rattle.circuit_threads.specs.Told.{nothing_told};
ghost use Rattle.circuit_threads.specs.Turns.{TookTurn, EndsWith};

use crate::behind::Behind;
use crate::entry::{Receipt, SubmitFault};
use crate::journal::Journal;
use isis_base::OutOfMemory;
use router_core::{NodeEvent, Router};
use router_desk::Desk;
use std::alloc::Global;
use std::sync::Wait;
use turn_lock::{Pass, TurnLock, TurnOut};

/// A router that threads share, and its journal. Who holds a pass of it submits events, in turns.
#[derive(Drop)]
pub struct SharedRouter<J: Journal + Drop> {
    pub(crate) lock: TurnLock<Behind<J>>,
    pub(crate) desk: Desk,
    ghost same: { desk ≡ first_desk (start_at (λ b. b.notes.beginning) lock) },
}

impl<J: Journal + Drop> SharedRouter<J> {
    ghost use Rattle.circuit_threads.specs.Sharing.{start_of, first_router, first_journal, all_turns, IsPassOf, HasAll, Closes};

    /// A shared router, and a pass with all its turns. Without memory the router and the journal
    /// come back.
    pub fn new(
        alloc: Global,
        router: Router,
        journal: J,
        turns: u64,
    ) -> Result<(SharedRouter<J>, Pass<Behind<J>>), (Router, J, OutOfMemory)>
        requires { J.tells journal journal nothing_told }
        ensures lock { IfOk result (λ r. IsPassOf r.0 r.1) }
        ensures router { IfOk result (λ r. first_router r.0 ≡ router) }
        ensures journal { IfOk result (λ r. first_journal r.0 ≡ journal) }
        ensures turns { IfOk result (λ r. all_turns r.0 ≡ turns) }
        ensures pass { IfOk result (λ r. IsFirst turns r.1) }
        ensures err { IfErr result (λ r. (r.0 ≡ router) × (r.1 ≡ journal)) }
    {
        let desk = match router.desk().copy() {
            Ok(desk) => desk,
            Err(error) => return Err((router, journal, error)),
        };
        let behind = Behind::new(router, journal);
        match TurnLock::new(alloc, behind, turns) {
            Ok((lock, pass)) => Ok((SharedRouter { lock, desk }, pass)),
            Err((behind, _)) => {
                let (router, journal) = behind.open();
                Err((router, journal, OutOfMemory))
            }
        }
    }

    /// What never changes of the router's configuration: it opens datagrams. It waits for nobody.
    pub fn desk(&self) -> &Desk
        ensures { result.now
            ≡ desk_of (first_router self.now).config (first_router self.now).circuits }
    {
        &self.desk
    }

    /// Takes one turn, in which the event is done, and its entry appended. The pass comes back in
    /// any case. `OutOfMemory` and `Stopped` say that the event wasn't done; at `JournalFault` it
    /// was done, but its entry wasn't appended, and no later one will be. It may wait for the
    /// turns before.
    pub fn submit<R: Wait>(
        &self,
        rt: &R,
        pass: Pass<Behind<J>>,
        event: NodeEvent,
    ) -> Result<(Pass<Behind<J>>, Receipt), (Pass<Behind<J>>, SubmitFault)>
        requires lock { IsPassOf self.now pass }
        requires left { 0 < turns_left pass }
        requires fits { Fits (first_router self.now) event }
        requires prefixes { KeepsPrefixes event }
        ensures lock { IsPassOf self.now (pass_of result) }
        ensures turn { TookTurn pass (pass_of result) }
        ensures seen { EndsWith (seen pass) (note_of (label pass) event (answer_of result))
            (seen (pass_of result)) }
        ensures answer { IsAnswered (first_router self.now) (seen (pass_of result))
            (answer_of result) }
        ensures below { OwnsSeen (pass_of result) }
        ensures whole { HasAll self.now (pass_of result) → OwnsAll (pass_of result) }
    {
        let label = pass.label();
        let copy = event.copy();
        let (turn, mut behind) = self.lock.enter(rt, pass);
        let answer = behind.take(label, event, copy);
        let pass = self.lock.leave(turn, behind);
        match answer {
            Ok(receipt) => Ok((pass, receipt)),
            Err(fault) => Err((pass, fault)),
        }
    }

    /// Cuts a pass in two. The second has `turns`, and the first the rest. The n-th pass split from
    /// the first pass has label n.
    pub fn split(&self, pass: Pass<Behind<J>>, turns: u64) -> (Pass<Behind<J>>, Pass<Behind<J>>)
        requires lock { IsPassOf self.now pass }
        requires turns { turns ≤ turns_left pass }
        requires splits { splits pass + 1 < 2 ^ 64 }
        ensures locks { IsPassOf self.now result.0 × IsPassOf self.now result.1 }
        ensures first { KeepsRest pass turns result.0 }
        ensures second { IsSplitOff pass turns result.1 }
        ensures below { OwnsSeen result.0 × OwnsSeen result.1 }
    {
        self.lock.split(pass, turns)
    }

    /// Makes one pass of two, with the label of the first. It has seen what either has seen.
    pub fn join(&self, first: Pass<Behind<J>>, second: Pass<Behind<J>>) -> Pass<Behind<J>>
        requires locks { IsPassOf self.now first × IsPassOf self.now second }
        ensures lock { IsPassOf self.now result }
        ensures both { JoinsInto first second result }
        ensures below { OwnsSeen result }
        ensures whole { HasAll self.now result → OwnsAll result }
    {
        self.lock.join(first, second)
    }

    /// The router and the journal, unless a turn was entered and never left, which no submit does.
    pub fn close(self, pass: Pass<Behind<J>>) -> Result<(Router, J), TurnOut>
        requires lock { IsPassOf self pass }
        ensures words { Closes self pass result }
        ensures whole { HasAll self pass → IsOkAnd result (λ r.
            Closed J.tells J.faults (start_of self) (seen pass) r.0 r.1) }
    {
        let SharedRouter { lock, desk: _ } = self;
        match lock.close(pass) {
            Ok(behind) => Ok(behind.open()),
            Err(out) => Err(out),
        }
    }
}
