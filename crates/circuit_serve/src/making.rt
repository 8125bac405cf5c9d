//! One event of a worker: it submits it, and offers what the reply sends.
ghost use Rattle.std.specs.Prelude.{◌≡◌, ◌<◌, ◌≤◌, [], ◌∷◌, ℕ, Result};
ghost use Rattle.turn_lock.specs.Passes.{turns_left, label, seen};
ghost use Rattle.router_core.specs.Events.{Fits};
ghost use Rattle.circuit_threads.specs.Answered.{note_of, pass_of, answer_of, IsAnswered};
ghost use Rattle.circuit_threads.specs.Shared.{KeepsPrefixes};
ghost use Rattle.circuit_threads.specs.Sharing.{first_router, IsPassOf};
ghost use Rattle.circuit_threads.specs.Turns.{TookTurn, EndsWith};
ghost use Rattle.daemon_edge.specs.Ports.{Adds};
ghost use Rattle.circuit_serve.specs.Walks.{fault_in, sends_of, sends_in};

use circuit_threads::{Behind, Journal, Pass, Receipt, SharedRouter, SubmitFault};
use daemon_edge::Port;
use router_core::{Datagrams, NodeEvent, Reply};
use std::sync::Wait;

/// What a submit answers, beside its pass.
fn told<P>(answer: Result<(P, Receipt), (P, SubmitFault)>) -> (P, Result<Receipt, SubmitFault>)
    ensures pass { result.0 ≡ pass_of answer }
    ensures answer { result.1 ≡ answer_of answer }
{
    match answer {
        Ok((pass, receipt)) => (pass, Ok(receipt)),
        Err((pass, fault)) => (pass, Err(fault)),
    }
}

/// Offers datagrams in order.
fn send<P: Port>(port: &mut P, datagrams: &Datagrams)
    ensures opening { P.opening port.new ≡ P.opening port.old }
    ensures given { Adds (P.given port.old) (P.given port.new) [] }
    ensures offered { Adds (P.offered port.old) (P.offered port.new) datagrams.now }
    ensures asked { P.asked port.new ≡ P.asked port.old }
    ensures later { P.faults port.old ≤ P.faults port.new }
{
    for place in 0..datagrams.len() {
        let Some(datagram) = datagrams.get(place) else {
            unreachable!()
        };
        port.offer(datagram);
    }
}

/// Offers what a reply sends.
fn send_reply<P: Port>(port: &mut P, reply: &Reply)
    ensures opening { P.opening port.new ≡ P.opening port.old }
    ensures given { Adds (P.given port.old) (P.given port.new) [] }
    ensures offered { Adds (P.offered port.old) (P.offered port.new) (sends_of reply.now) }
    ensures asked { P.asked port.new ≡ P.asked port.old }
    ensures later { P.faults port.old ≤ P.faults port.new }
{
    match reply {
        Reply::Done | Reply::Dropped(_) => {}
        Reply::Send(datagrams) => send(port, datagrams),
    }
}

/// Offers what an answer has to send.
fn send_answer<P: Port>(port: &mut P, answer: &Result<Receipt, SubmitFault>)
    ensures opening { P.opening port.new ≡ P.opening port.old }
    ensures given { Adds (P.given port.old) (P.given port.new) [] }
    ensures offered { Adds (P.offered port.old) (P.offered port.new) (sends_in answer.now) }
    ensures asked { P.asked port.new ≡ P.asked port.old }
    ensures later { P.faults port.old ≤ P.faults port.new }
{
    match answer {
        Ok(receipt) => send_reply(port, &receipt.reply),
        Err(SubmitFault::JournalFault(receipt)) => send_reply(port, &receipt.reply),
        Err(SubmitFault::OutOfMemory) => {}
        Err(SubmitFault::Stopped { entry: _ }) => {}
    }
}

/// What a submit was refused for, if it was.
pub fn fault_of(answer: Result<Receipt, SubmitFault>) -> Option<SubmitFault>
    ensures { result ≡ fault_in answer }
{
    match answer {
        Ok(_receipt) => None,
        Err(fault) => Some(fault),
    }
}

/// Submits an event.
pub fn submit<J: Journal + Drop, R: Wait>(
    rt: &R,
    shared: &SharedRouter<J>,
    pass: Pass<Behind<J>>,
    event: NodeEvent,
) -> (Pass<Behind<J>>, Result<Receipt, SubmitFault>)
    requires lock { IsPassOf shared.now pass }
    requires left { 0 < turns_left pass }
    requires fits { Fits (first_router shared.now) event }
    requires prefixes { KeepsPrefixes event }
    ensures lock { IsPassOf shared.now result.0 }
    ensures turn { TookTurn pass result.0 }
    ensures seen { EndsWith (seen pass) (note_of (label pass) event result.1) (seen result.0) }
    ensures answer { IsAnswered (first_router shared.now) (seen result.0) result.1 }
{
    told(shared.submit(rt, pass, event))
}

/// Submits an event, and offers what its reply sends.
pub fn make<J: Journal + Drop, P: Port, R: Wait>(
    rt: &R,
    shared: &SharedRouter<J>,
    pass: Pass<Behind<J>>,
    event: NodeEvent,
    port: &mut P,
) -> (Pass<Behind<J>>, Result<Receipt, SubmitFault>)
    requires lock { IsPassOf shared.now pass }
    requires left { 0 < turns_left pass }
    requires fits { Fits (first_router shared.now) event }
    requires prefixes { KeepsPrefixes event }
    ensures lock { IsPassOf shared.now result.0 }
    ensures turn { TookTurn pass result.0 }
    ensures seen { EndsWith (seen pass) (note_of (label pass) event result.1) (seen result.0) }
    ensures answer { IsAnswered (first_router shared.now) (seen result.0) result.1 }
    ensures opening { P.opening port.new ≡ P.opening port.old }
    ensures given { Adds (P.given port.old) (P.given port.new) [] }
    ensures offered { Adds (P.offered port.old) (P.offered port.new) (sends_in result.1) }
    ensures asked { P.asked port.new ≡ P.asked port.old }
    ensures later { P.faults port.old ≤ P.faults port.new }
{
    let (pass, answer) = submit(rt, shared, pass, event);
    send_answer(port, &answer);
    (pass, answer)
}
