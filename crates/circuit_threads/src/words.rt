//! The words of a line of a journal, put on a page.
ghost use Rattle.std.specs.Prelude.{◌≡◌, ◌+◌, ◌≤◌, ◌<◌, ◌++◌, length, codes};
ghost use Rattle.model_router.specs.Drops.{drop_word};
ghost use Rattle.circuit_threads.specs.JournalText.{change_text, metric_text};
ghost use Rattle.circuit_threads.specs.LineRests.{event_front, reply_front, front_text, taken_octets};

use crate::entry::JournalEntry;
use crate::page::Page;
use router_core::{NodeEvent, Reply};
use router_desk::{Change, DropName};

/// Adds an entry's number, its pass and what stands before the octets of its event.
#[tactic(auto, unfolding(crate::specs::LineRests::front_text))]
pub(crate) fn add_front(page: &mut Page, entry: &JournalEntry)
    requires { length page.old + 500 ≤ 2048 }
    ensures text { page.new ≡ page.old ++ front_text entry.now }
    ensures some { length page.old < length page.new }
{
    page.add_number(b"", entry.number);
    page.add_number(b" ", entry.pass);
    page.add(b" ");
    add_event(page, &entry.event);
}

/// Adds what stands before the octets of an event.
fn add_event(page: &mut Page, event: &NodeEvent)
    requires { length page.old + 300 ≤ 2048 }
    ensures text { page.new ≡ page.old ++ event_front event.now }
{
    match event {
        NodeEvent::Second => page.add(b"second"),
        NodeEvent::Take(opened) => {
            page.add_number(b"take ", u64::from(opened.circuit()));
            page.add(b" ");
        }
        NodeEvent::Pull { circuit } => page.add_number(b"pull ", u64::from(*circuit)),
        NodeEvent::Change(change) => add_change(page, *change),
    }
}

/// Adds a change of a configuration.
fn add_change(page: &mut Page, change: Change)
    requires { length page.old + 300 ≤ 2048 }
    ensures text { page.new ≡ page.old ++ change_text change }
{
    match change {
        Change::Metric { circuit, metric } => {
            page.add_number(b"change metric ", u64::from(circuit));
            page.add_number(b" ", u64::from(metric));
        }
        Change::Prefix { prefix, metric } => {
            page.add(b"change prefix ");
            page.add_prefix(prefix);
            add_metric(page, metric);
        }
        Change::Overload { on: true } => page.add(b"change overload on"),
        Change::Overload { on: false } => page.add(b"change overload off"),
    }
}

/// Adds the metric of a prefix, or that it has none.
fn add_metric(page: &mut Page, metric: Option<u32>)
    requires { length page.old + 40 ≤ 2048 }
    ensures text { page.new ≡ page.old ++ (codes " " ++ metric_text metric) }
{
    match metric {
        Some(metric) => page.add_number(b" ", u64::from(metric)),
        None => page.add(b" none"),
    }
}

/// Adds what stands before the datagrams of a reply.
pub(crate) fn add_reply(page: &mut Page, reply: &Reply)
    requires { length page.old + 100 ≤ 2048 }
    ensures text { page.new ≡ page.old ++ reply_front reply.now }
    ensures some { length page.old < length page.new }
{
    match reply {
        Reply::Done => page.add(b" -> done\n"),
        Reply::Dropped(cause) => {
            page.add(b" -> drop ");
            add_name(page, cause.name());
            page.add(b"\n");
        }
        Reply::Send(_) => page.add(b" -> send"),
    }
}

/// Adds the word of a drop's cause.
fn add_name(page: &mut Page, name: DropName)
    requires { length page.old + 20 ≤ 2048 }
    ensures text { page.new ≡ page.old ++ drop_word name }
    ensures count { length page.new ≤ length page.old + 20 }
{
    page.add(name.word().as_bytes());
}

/// The octets that an event says in hex.
pub(crate) fn taken_octets(event: &NodeEvent) -> &[u8]
    ensures { result.now ≡ taken_octets event.now }
{
    match event {
        NodeEvent::Take(opened) => opened.octets(),
        NodeEvent::Second | NodeEvent::Pull { circuit: _ } | NodeEvent::Change(_) => &[],
    }
}
