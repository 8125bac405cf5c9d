//! The entry of some words, a reader for each form.
ghost use Rattle.std.specs.Prelude.{◌≡◌};
ghost use Rattle.std.specs.Option.{option_map};
ghost use Rattle.journal_text.specs.Entries as form;
ghost use Rattle.journal_text.specs.Lent.{entry_in, reply_in};
ghost use Rattle.line_cuts.specs.Words.{words_of};

use crate::fields::{
    read_circuit, read_drop, read_metric, read_pass, read_prefix_metric, read_this,
};
use crate::hex_words::HexWords;
use crate::lent::{LentEntry, LentEvent, LentReply};
use line_cuts::{Words, read_octets, read_on, read_prefix_word};
use router_desk::Change;

/// The entry of this number that a line says; none where it says none.
pub(crate) fn read_line(number: usize, line: &[u8]) -> Option<LentEntry<'_>>
    ensures { option_map entry_in result ≡ form.entry_of number (words_of line.now) }
{
    let mut words = Words::of(line);
    read_this(words.next()?, number)?;
    read_pass(words.next()?)?;
    event(words)
}

/// The event, and what follows it.
fn event<'a>(mut words: Words<'a>) -> Option<LentEntry<'a>>
    ensures { option_map entry_in result ≡ form.event_form words.entry }
{
    let first = words.next()?;
    if first == b"second".as_slice() {
        return second(words);
    }
    if first == b"take".as_slice() {
        return take(words);
    }
    if first == b"pull".as_slice() {
        return pull(words);
    }
    if first == b"change".as_slice() {
        return change(words);
    }
    None
}

fn second<'a>(words: Words<'a>) -> Option<LentEntry<'a>>
    ensures { option_map entry_in result ≡ form.second_form words.entry }
{
    let reply = reply(words)?;
    let event = LentEvent::Second;
    Some(LentEntry { event, reply })
}

fn take<'a>(mut words: Words<'a>) -> Option<LentEntry<'a>>
    ensures { option_map entry_in result ≡ form.take_form words.entry }
{
    let circuit = read_circuit(words.next()?)?;
    let octets = read_octets(words.next()?)?;
    let reply = reply(words)?;
    let event = LentEvent::Take { circuit, octets };
    Some(LentEntry { event, reply })
}

fn pull<'a>(mut words: Words<'a>) -> Option<LentEntry<'a>>
    ensures { option_map entry_in result ≡ form.pull_form words.entry }
{
    let circuit = read_circuit(words.next()?)?;
    let reply = reply(words)?;
    let event = LentEvent::Pull { circuit };
    Some(LentEntry { event, reply })
}

/// The kind of a change, and what follows it.
fn change<'a>(mut words: Words<'a>) -> Option<LentEntry<'a>>
    ensures { option_map entry_in result ≡ form.change_form words.entry }
{
    let first = words.next()?;
    if first == b"metric".as_slice() {
        return metric(words);
    }
    if first == b"prefix".as_slice() {
        return prefix(words);
    }
    if first == b"overload".as_slice() {
        return overload(words);
    }
    None
}

fn metric<'a>(mut words: Words<'a>) -> Option<LentEntry<'a>>
    ensures { option_map entry_in result ≡ form.metric_form words.entry }
{
    let circuit = read_circuit(words.next()?)?;
    let metric = read_metric(words.next()?)?;
    let reply = reply(words)?;
    let event = LentEvent::Change(Change::Metric { circuit, metric });
    Some(LentEntry { event, reply })
}

fn prefix<'a>(mut words: Words<'a>) -> Option<LentEntry<'a>>
    ensures { option_map entry_in result ≡ form.prefix_form words.entry }
{
    let prefix = read_prefix_word(words.next()?)?;
    let metric = read_prefix_metric(words.next()?)?;
    let reply = reply(words)?;
    let event = LentEvent::Change(Change::Prefix { prefix, metric });
    Some(LentEntry { event, reply })
}

fn overload<'a>(mut words: Words<'a>) -> Option<LentEntry<'a>>
    ensures { option_map entry_in result ≡ form.overload_form words.entry }
{
    let on = read_on(words.next()?)?;
    let reply = reply(words)?;
    let event = LentEvent::Change(Change::Overload { on });
    Some(LentEntry { event, reply })
}

/// The arrow, and the reply behind it.
fn reply<'a>(mut words: Words<'a>) -> Option<LentReply<'a>>
    ensures { option_map reply_in result ≡ form.reply_form words.entry }
{
    let arrow = words.next()?;
    if arrow == b"->".as_slice() {
        return behind_arrow(words);
    }
    None
}

fn behind_arrow<'a>(mut words: Words<'a>) -> Option<LentReply<'a>>
    ensures { option_map reply_in result ≡ form.behind_arrow words.entry }
{
    let first = words.next()?;
    if first == b"done".as_slice() {
        return done(words);
    }
    if first == b"drop".as_slice() {
        return dropped(words);
    }
    if first == b"send".as_slice() {
        return send(words);
    }
    None
}

fn done<'a>(words: Words<'a>) -> Option<LentReply<'a>>
    ensures { option_map reply_in result ≡ form.done_form words.entry }
{
    words.end()?;
    Some(LentReply::Done)
}

fn dropped<'a>(mut words: Words<'a>) -> Option<LentReply<'a>>
    ensures { option_map reply_in result ≡ form.drop_form words.entry }
{
    let name = read_drop(words.next()?)?;
    words.end()?;
    Some(LentReply::Dropped(name))
}

fn send<'a>(words: Words<'a>) -> Option<LentReply<'a>>
    ensures { option_map reply_in result ≡ form.send_form words.entry }
{
    let datagrams = HexWords::read(words)?;
    Some(LentReply::Send(datagrams))
}
