//! Whether a script names what the events of a schedule are of.
ghost use Rattle.std.specs.Prelude.{◌≡◌, ◌<◌, ◌≤◌, ◌^◌, true, IfSome};
ghost use Rattle.std.specs.List.{AllByRecursion};
ghost use Rattle.lab_script.specs.LabScripts as said;
ghost use Rattle.weave_text.specs.ReadBack.{HasNames, AreAllNamed, HasRouter, HasCircuit, HasCircuitOf, HasChange, HasEvent, HasSchedule};

use crate::lines::link_on;
use lab_text::{End, LabScript, Script};
use router_desk::Change;
use weave::{LabEvent, Network, Schedule};

/// Whether a script names what the events of a schedule are of.
pub(crate) fn has_schedule(script: &Script<'_>, net: &Network, schedule: &Schedule) -> bool
    requires { HasNames script.now }
    ensures { result ≡ true → HasSchedule script.now net.now.seen schedule.now }
{
    match script {
        Script::Keys(_) => false,
        Script::Lab(script) => has_events(script, net, schedule),
    }
}

/// Whether a lab script does.
fn has_events(script: &LabScript<'_>, net: &Network, schedule: &Schedule) -> bool
    requires { AreAllNamed script.now }
    ensures { result ≡ true
        → AllByRecursion (HasEvent script.now net.now.seen) schedule.now }
{
    for place in 0..schedule.len() {
        let Some(event) = schedule.get(place) else {
            return false;
        };
        if !has_event(script, net, event) {
            return false;
        }
    }
    true
}

/// Whether it names what an event is of.
fn has_event(script: &LabScript<'_>, net: &Network, event: &LabEvent) -> bool
    requires { AreAllNamed script.now }
    ensures { result ≡ true → HasEvent script.now net.now.seen event.now }
{
    match event {
        LabEvent::Tick { router } => has_router(script, *router),
        LabEvent::Pull { router, link } => circuit_on(script, *router, *link).is_some(),
        LabEvent::Deliver { datagram, router } => has_delivery(script, *datagram, *router),
        LabEvent::Restart { router } => has_router(script, *router),
        LabEvent::Change { router, change } => has_change(script, net, *router, change),
        LabEvent::Inject { .. } => false,
    }
}

/// Whether it names what a change is of.
fn has_change(script: &LabScript<'_>, net: &Network, router: usize, change: &Change) -> bool
    requires { AreAllNamed script.now }
    ensures { result ≡ true → HasChange script.now net.now.seen router change.now }
{
    match change {
        Change::Metric { circuit, metric } => {
            if *metric > 16777215 {
                return false;
            }
            has_circuit(script, net, router, *circuit)
        }
        Change::Prefix { prefix, metric } => {
            has_prefix(script, router, prefix.address(), *metric)
        }
        Change::Overload { on: _ } => has_router(script, router),
    }
}

/// Whether there is a router for a delivery.
fn has_delivery(script: &LabScript<'_>, datagram: usize, router: usize) -> bool
    requires { AreAllNamed script.now }
    ensures { result ≡ true → (datagram < 2 ^ 64) × HasRouter script.now router }
{
    let _ = datagram;
    has_router(script, router)
}

/// Whether there is a router for a prefix of this address, and the prefix's metric is in its range.
fn has_prefix(script: &LabScript<'_>, router: usize, address: u32, metric: Option<u32>) -> bool
    requires { AreAllNamed script.now }
    ensures { result ≡ true → HasRouter script.now router × (address < 2 ^ 32)
        × IfSome metric (λ m. m ≤ 4261412864) }
{
    let _ = address;
    if !is_metric(metric) {
        return false;
    }
    has_router(script, router)
}

/// Whether a prefix's metric, if it has one, is in its range.
fn is_metric(metric: Option<u32>) -> bool
    ensures { result ≡ true → IfSome metric (λ m. m ≤ 4261412864) }
{
    match metric {
        Some(metric) => metric <= 4261412864,
        None => true,
    }
}

/// Whether there is a router of this number.
fn has_router(script: &LabScript<'_>, router: usize) -> bool
    requires { AreAllNamed script.now }
    ensures { result ≡ true → HasRouter script.now router }
{
    router < script.routers().len()
}

/// Whether a router's circuit, counted from 1, is on a link of the script, at its place.
fn has_circuit(script: &LabScript<'_>, net: &Network, router: usize, circuit: u8) -> bool
    requires { AreAllNamed script.now }
    ensures { result ≡ true → HasCircuitOf script.now net.now.seen router circuit }
{
    let Some(link) = link_on(net, router, circuit) else {
        return false;
    };
    let Some(place) = circuit_on(script, router, link) else {
        return false;
    };
    place == usize::from(circuit).saturating_sub(1)
}

/// The place of a router's circuit on a link.
fn circuit_on(script: &LabScript<'_>, router: usize, link: usize) -> Option<usize>
    requires { AreAllNamed script.now }
    ensures { IfSome result (λ place. HasCircuit script.now router link place) }
{
    if !has_router(script, router) {
        return None;
    }
    place_at(script, link, router)
}

/// The place of a router's circuit on the link of this number.
fn place_at(script: &LabScript<'_>, link: usize, router: usize) -> Option<usize>
    ensures { result ≡ said.place_at script.now.links link router }
{
    match script.links().get(link) {
        Some(link) => place_among(link.ends.as_slice(), router),
        None => None,
    }
}

/// The place of a router's circuit among ends.
fn place_among(ends: &[End], router: usize) -> Option<usize>
    ensures { result ≡ said.place_among ends.now router }
{
    for end in ends {
        if end.router == router {
            return Some(end.place);
        }
    }
    None
}
