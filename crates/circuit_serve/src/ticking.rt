//! The ticker.
ghost use Rattle.std.specs.Prelude.{◌≡◌, ◌+◌, ◌<◌, ◌≤◌, ◌⊎◌, [], List, length, None, Some, true};
ghost use Rattle.turn_lock.specs.Passes.{turns_left, label, own, seen};
ghost use Rattle.circuit_threads.specs.declared.entry.JournalEntry.{JournalEntry};
ghost use Rattle.circuit_threads.specs.Sharing.{first_router, IsPassOf};
ghost use Rattle.circuit_serve.specs.Labels.{Only};
ghost use Rattle.circuit_serve.specs.Walks.{IsMarked, IsCalm, Ticked};

use crate::making::{fault_of, submit};
use circuit_threads::{Behind, Journal, Pass, SharedRouter, SubmitFault};
use daemon_edge::{Pace, Pacer};
use router_core::NodeEvent;
use std::sync::Wait;
use std::time::Clock;

/// A second for each that the pacer gives, up to so many, or up to the first refusal.
pub fn tick<J: Journal + Drop, T: Pacer, R: Wait + Clock>(
    rt: &R,
    shared: &SharedRouter<J>,
    pass: Pass<Behind<J>>,
    pacer: &mut T,
    turns: u64,
) -> (Pass<Behind<J>>, Option<SubmitFault>)
    requires lock { IsPassOf shared.now pass × (turns ≤ turns_left pass) }
    requires fresh { own pass ≡ [] }
    requires calm { IsCalm (first_router shared.now) (seen pass) }
    ensures lock { IsPassOf shared.now result.0 × (label result.0 ≡ label pass) }
    ensures left { turns_left result.0 + length (own result.0) ≡ turns_left pass }
    ensures ticked { (es : List JournalEntry) × Only (label pass) (own result.0) (seen result.0) es
        × Ticked es (T.given pacer.old) (T.given pacer.new) (T.ended pacer.new) turns result.1 }
    ensures marked { IsMarked (first_router shared.now) (seen result.0) result.1 }
{
    let mut pass = pass;
    for _ in 0..turns {
        let Pace::Second = pacer.next(rt) else {
            return (pass, None);
        };
        let (next, answer) = submit(rt, shared, pass, NodeEvent::Second);
        pass = next;
        if let Some(fault) = fault_of(answer) {
            return (pass, Some(fault));
        }
    }
    (pass, None)
}
