//! The worker of a circuit.
ghost use Rattle.std.specs.Prelude.{◌≡◌, ◌+◌, ◌^◌, ◌<◌, ◌≤◌, [], ◌∷◌, List, length, ℕ, Bool, None, Some, false, Result, IfOk};
ghost use Rattle.turn_lock.specs.Passes.{turns_left, label, own, seen};
ghost use Rattle.isis_edge.specs.Faults.{one_more};
ghost use Rattle.router_core.specs.Events.{Fits, IsThere};
ghost use Rattle.circuit_threads.specs.declared.entry.JournalEntry.{JournalEntry};
ghost use Rattle.circuit_threads.specs.Sharing.{first_router, IsPassOf};
ghost use Rattle.daemon_edge.specs.Ports.{Adds};
ghost use Rattle.circuit_serve.specs.Labels.{Only};
ghost use Rattle.daemon_edge.specs.Ports.{IsFresh};
ghost use Rattle.circuit_serve.specs.Walks.{came, Runs, Ran, TookIn, Pulled, IsMarked, IsCalm};

use crate::making::{fault_of, make};
use circuit_threads::{Behind, Journal, Pass, SharedRouter, SubmitFault};
use daemon_edge::{Gate, Port, Taken};
use isis_base::{Octets, OutOfMemory};
use router_core::NodeEvent;
use router_desk::Opened;
use std::alloc::Global;
use std::sync::Wait;
use std::time::Clock;

/// What a take has room for.
const ROOM: [u8; 2048] = [0; 2048];

/// Asks a port for a datagram. Its room is taken first, so at a want of memory the port wasn't asked.
fn receive<P: Port, R: Clock>(
    rt: &R,
    alloc: Global,
    port: &mut P,
) -> Result<Option<Octets>, OutOfMemory>
    ensures opening { P.opening port.new ≡ P.opening port.old }
    ensures given { Adds (P.given port.old) (P.given port.new) (came result) }
    ensures offered { Adds (P.offered port.old) (P.offered port.new) [] }
    ensures asked { IfOk result (λ _. P.asked port.new ≡ one_more (P.asked port.old)) }
    ensures later { P.faults port.old ≤ P.faults port.new }
{
    let mut datagram = Octets::new(alloc);
    match datagram.extend(&ROOM) {
        Ok(()) => {}
        Err(error) => return Err(error),
    }
    match port.take(rt, datagram.as_mut_slice()) {
        Taken::Got(count) => {
            datagram.truncate(count);
            Ok(Some(datagram))
        }
        Taken::NotYet | Taken::Failed => Ok(None),
    }
}

/// A take of an opened datagram.
fn take<J: Journal + Drop, P: Port, R: Wait>(
    rt: &R,
    shared: &SharedRouter<J>,
    pass: Pass<Behind<J>>,
    port: &mut P,
    opened: Opened,
) -> (Pass<Behind<J>>, Option<SubmitFault>)
    requires lock { IsPassOf shared.now pass × (label pass ≡ opened.circuit)
        × (0 < turns_left pass) }
    requires there { Fits (first_router shared.now) (NodeEvent.Take opened) }
    ensures lock { IsPassOf shared.now result.0 × (label result.0 ≡ opened.circuit) }
    ensures left { (turns_left pass ≤ turns_left result.0 + 1)
        × (turns_left result.0 + length (own result.0) ≡ turns_left pass + length (own pass)) }
    ensures ran { (es : List JournalEntry) (n : ℕ) → Only opened.circuit (own pass) (seen pass) es
        → Runs opened.circuit es (P.given port.old) (P.offered port.old) n false
        (opened.octets ∷ [])
        → (es' : List JournalEntry) × Only opened.circuit (own result.0) (seen result.0) es'
        × TookIn opened.circuit es' (P.given port.new) (P.offered port.new) n result.1 }
    ensures opening { P.opening port.new ≡ P.opening port.old }
    ensures marked { IsMarked (first_router shared.now) (seen result.0) result.1 }
    ensures asked { P.asked port.new ≡ P.asked port.old }
{
    let (pass, answer) = make(rt, shared, pass, NodeEvent::Take(opened), port);
    (pass, fault_of(answer))
}

/// A take from the port, submitted where a datagram came.
fn take_in<J: Journal + Drop, P: Port, R: Wait + Clock>(
    rt: &R,
    alloc: Global,
    shared: &SharedRouter<J>,
    pass: Pass<Behind<J>>,
    port: &mut P,
    circuit: u8,
) -> (Pass<Behind<J>>, Option<SubmitFault>)
    requires lock { IsPassOf shared.now pass × (label pass ≡ circuit) × (0 < turns_left pass) }
    requires calm { IsCalm (first_router shared.now) (seen pass) }
    requires there { IsThere (first_router shared.now) circuit }
    ensures lock { IsPassOf shared.now result.0 × (label result.0 ≡ circuit) }
    ensures left { (turns_left pass ≤ turns_left result.0 + 1)
        × (turns_left result.0 + length (own result.0) ≡ turns_left pass + length (own pass)) }
    ensures ran { (es : List JournalEntry) (n : ℕ) → Only circuit (own pass) (seen pass) es
        → Runs circuit es (P.given port.old) (P.offered port.old) n false []
        → (es' : List JournalEntry) × Only circuit (own result.0) (seen result.0) es'
        × TookIn circuit es' (P.given port.new) (P.offered port.new) n result.1 }
    ensures opening { P.opening port.new ≡ P.opening port.old }
    ensures marked { IsMarked (first_router shared.now) (seen result.0) result.1 }
    ensures asked { result.1 ≡ None → P.asked port.new ≡ one_more (P.asked port.old) }
{
    let datagram = match receive(rt, alloc, port) {
        Ok(Some(datagram)) => datagram,
        Ok(None) => return (pass, None),
        Err(OutOfMemory) => return (pass, Some(SubmitFault::OutOfMemory)),
    };
    let opened = shared.desk().open(circuit, datagram);
    take(rt, shared, pass, port, opened)
}

/// A pull.
fn pull<J: Journal + Drop, P: Port, R: Wait>(
    rt: &R,
    shared: &SharedRouter<J>,
    pass: Pass<Behind<J>>,
    port: &mut P,
    circuit: u8,
) -> (Pass<Behind<J>>, Option<SubmitFault>)
    requires lock { IsPassOf shared.now pass × (label pass ≡ circuit) × (0 < turns_left pass) }
    requires there { IsThere (first_router shared.now) circuit }
    ensures lock { IsPassOf shared.now result.0 × (label result.0 ≡ circuit) }
    ensures left { (turns_left pass ≤ turns_left result.0 + 1)
        × (turns_left result.0 + length (own result.0) ≡ turns_left pass + length (own pass)) }
    ensures ran { (es : List JournalEntry) (n : ℕ) (waits : Bool)
        → Only circuit (own pass) (seen pass) es
        → Runs circuit es (P.given port.old) (P.offered port.old) n waits []
        → (es' : List JournalEntry) × Only circuit (own result.0) (seen result.0) es'
        × Pulled circuit es' (P.given port.new) (P.offered port.new) (n + 1) result.1 }
    ensures opening { P.opening port.new ≡ P.opening port.old }
    ensures marked { IsMarked (first_router shared.now) (seen result.0) result.1 }
    ensures asked { P.asked port.new ≡ P.asked port.old }
{
    let (pass, answer) = make(rt, shared, pass, NodeEvent::Pull { circuit }, port);
    (pass, fault_of(answer))
}

/// One turn: a take from the port, submitted where a datagram came, and a pull.
fn turn<J: Journal + Drop, P: Port, R: Wait + Clock>(
    rt: &R,
    alloc: Global,
    shared: &SharedRouter<J>,
    pass: Pass<Behind<J>>,
    port: &mut P,
    circuit: u8,
) -> (Pass<Behind<J>>, Option<SubmitFault>)
    requires lock { IsPassOf shared.now pass × (label pass ≡ circuit) × (2 ≤ turns_left pass) }
    requires calm { IsCalm (first_router shared.now) (seen pass) }
    requires there { IsThere (first_router shared.now) circuit }
    ensures lock { IsPassOf shared.now result.0 × (label result.0 ≡ circuit) }
    ensures left { (turns_left pass ≤ turns_left result.0 + 2)
        × (turns_left result.0 + length (own result.0) ≡ turns_left pass + length (own pass)) }
    ensures ran { (es : List JournalEntry) (n : ℕ) → Only circuit (own pass) (seen pass) es
        → Ran circuit es (P.given port.old) (P.offered port.old) (P.asked port.old) n None
        → n + 1 < 2 ^ 64
        → (es' : List JournalEntry) × Only circuit (own result.0) (seen result.0) es'
        × Ran circuit es' (P.given port.new) (P.offered port.new) (P.asked port.new)
        (n + 1) result.1 }
    ensures opening { P.opening port.new ≡ P.opening port.old }
    ensures marked { IsMarked (first_router shared.now) (seen result.0) result.1 }
{
    let (pass, fault) = take_in(rt, alloc, shared, pass, port, circuit);
    if let Some(fault) = fault {
        return (pass, Some(fault));
    }
    pull(rt, shared, pass, port, circuit)
}

/// So many turns, or up to the first refusal.
pub fn work<J: Journal + Drop, P: Port, G: Gate, R: Wait + Clock>(
    rt: &R,
    alloc: Global,
    shared: &SharedRouter<J>,
    gate: &G,
    pass: Pass<Behind<J>>,
    port: &mut P,
    circuit: u8,
    turns: u64,
) -> (Pass<Behind<J>>, Option<SubmitFault>)
    requires lock { IsPassOf shared.now pass × (label pass ≡ circuit)
        × (turns + turns ≤ turns_left pass) }
    requires calm { IsCalm (first_router shared.now) (seen pass) }
    requires there { IsThere (first_router shared.now) circuit }
    requires fresh { own pass ≡ [] }
    requires port { IsFresh (P.given port.old) (P.offered port.old) (P.asked port.old) }
    ensures lock { IsPassOf shared.now result.0 × (label result.0 ≡ circuit) }
    ensures left { turns_left result.0 + length (own result.0) ≡ turns_left pass }
    ensures ran { (es : List JournalEntry) × Only circuit (own result.0) (seen result.0) es
        × Ran circuit es (P.given port.new) (P.offered port.new) (P.asked port.new) turns result.1 }
    ensures opening { P.opening port.new ≡ P.opening port.old }
    ensures marked { IsMarked (first_router shared.now) (seen result.0) result.1 }
{
    let mut pass = pass;
    for number in 0..turns {
        gate.before(circuit, number + 1);
        let (next, fault) = turn(rt, alloc, shared, pass, port, circuit);
        pass = next;
        if let Some(fault) = fault {
            return (pass, Some(fault));
        }
        gate.after(circuit, number + 1);
    }
    (pass, None)
}
