//! The text of the lab script that is written.
ghost use Rattle.std.specs.Prelude.{◌≡◌, ◌++◌, take, IfOk, OnOk};
ghost use Rattle.std.specs.List.{flat_map};
ghost use Rattle.lab_text.specs.Passed.{name_at};
ghost use Rattle.weave_text.specs.Ahead.{told_in};
ghost use Rattle.weave_text.specs.Written as written;
ghost use Rattle.weave_text.specs.Named.{naming_in};

use crate::ahead::add_told;
use crate::input_lines::Lines;
use crate::words::{
    add_both, add_delivery, add_injection, add_metric, add_named, add_prefix, on_word,
};
use isis_base::{Octets, OutOfMemory};
use lab_text::Script;
use router_desk::Change;
use std::alloc::Global;
use weave::{LabEvent, Network, Schedule};

/// The lab script of the first so many lines, those that are skipped left out, and a schedule's events.
#[tactic(auto, unfolding(crate::specs::Written::woven_text))]
pub(crate) fn woven_text(
    alloc: Global,
    lines: &Lines<'_>,
    count: usize,
    script: &Script<'_>,
    net: &Network,
    schedule: &Schedule,
) -> Result<Octets, OutOfMemory>
    ensures { IfOk result (λ text. text ≡ written.woven_text (told_in (take count lines.now.lines))
        (naming_in script.now) net.now.seen schedule.now) }
{
    let mut text = Octets::new(alloc);
    text.extend(b"isis-lab 1\n")?;
    add_told(&mut text, lines, count)?;
    add_events(alloc, &mut text, script, net, schedule)?;
    Ok(text)
}

/// The lines of a schedule's events.
fn add_events(
    alloc: Global,
    text: &mut Octets,
    script: &Script<'_>,
    net: &Network,
    schedule: &Schedule,
) -> Result<(), OutOfMemory>
    ensures { OnOk result (text.new ≡ text.old
        ++ flat_map (written.event_line (naming_in script.now) net.now.seen) schedule.now) }
{
    for place in 0..schedule.len() {
        let Some(event) = schedule.get(place) else {
            return Ok(());
        };
        match add_event(alloc, text, script, net, event) {
            Ok(()) => {}
            Err(error) => return Err(error),
        }
    }
    Ok(())
}

/// The line of an event.
#[tactic(auto, unfolding(crate::specs::Written::event_line))]
fn add_event(
    alloc: Global,
    text: &mut Octets,
    script: &Script<'_>,
    net: &Network,
    event: &LabEvent,
) -> Result<(), OutOfMemory>
    ensures { OnOk result (text.new ≡ text.old
        ++ written.event_line (naming_in script.now) net.now.seen event.now) }
{
    match event {
        LabEvent::Tick { router } => add_named(text, b"tick", name_of(script, *router)),
        LabEvent::Pull { router, link } => {
            let name = name_of(script, *router);
            add_both(text, b"pull", name, link_name(script, Some(*link)))
        }
        LabEvent::Deliver { datagram, router } => {
            add_delivery(text, *datagram, name_of(script, *router))
        }
        LabEvent::Restart { router } => add_named(text, b"restart", name_of(script, *router)),
        LabEvent::Change { router, change } => {
            add_change(alloc, text, script, net, *router, change)
        }
        LabEvent::Inject {
            router,
            link,
            octets,
        } => {
            let name = name_of(script, *router);
            let link = link_name(script, Some(*link));
            add_injection(text, name, link, octets.as_slice())
        }
    }
}

/// The line of a change.
fn add_change(
    alloc: Global,
    text: &mut Octets,
    script: &Script<'_>,
    net: &Network,
    router: usize,
    change: &Change,
) -> Result<(), OutOfMemory>
    ensures { OnOk result (text.new ≡ text.old ++ written.line_of_words
        (written.change_words (naming_in script.now) net.now.seen router change.now)) }
{
    let name = name_of(script, router);
    match change {
        Change::Metric { circuit, metric } => {
            let link = link_name(script, link_on(net, router, *circuit));
            add_metric(text, name, link, *metric)
        }
        Change::Prefix { prefix, metric } => add_prefix(alloc, text, name, *prefix, *metric),
        Change::Overload { on } => add_both(text, b"overload", name, on_word(*on)),
    }
}

/// The name of a router; nothing where there is none of this number.
#[tactic(auto, unfolding(lab_text::specs::Passed::name_at))]
fn name_of<'s>(script: &'s Script<'_>, router: usize) -> &'s [u8]
    ensures { result.now ≡ name_at (naming_in script.now).routers router }
{
    match script.name(router) {
        Some(name) => name.as_bytes(),
        None => b"",
    }
}

/// The name of a link, if there is one.
#[tactic(auto, unfolding(lab_text::specs::Passed::name_at))]
fn link_name<'s>(script: &'s Script<'_>, link: Option<usize>) -> &'s [u8]
    ensures { result.now ≡ written.name_in (naming_in script.now).links link }
{
    let Some(link) = link else {
        return b"";
    };
    match script.link(link) {
        Some(name) => name.as_bytes(),
        None => b"",
    }
}

/// The link of a router's circuit, counted from 1; none where it isn't there.
pub(crate) fn link_on(net: &Network, router: usize, circuit: u8) -> Option<usize>
    ensures { result ≡ written.link_on net.now.seen router circuit }
{
    if router < net.routers() && 1 <= circuit {
        return net.link_of(router, circuit);
    }
    None
}
