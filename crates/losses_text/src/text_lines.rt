//! The lines of texts of losses.
ghost use Rattle.std.specs.Prelude.{◌≡◌};
ghost use Rattle.std.specs.Option.{option_map};
ghost use Rattle.losses_text.specs.TextLines as form;
ghost use Rattle.line_cuts.specs.Words.{words_of};

use crate::part_words::PartOf;
use crate::said::NamedLoss;
use crate::words::{part_from, read_most};
use line_cuts::{Words, read_up_to};

/// A line of a text of losses: its head, or what it says.
#[derive(Clone, Copy, Debug)]
pub(crate) enum TextLine<'a> {
    Head,
    Most(u32),
    Part(PartOf),
    Schedules(u32),
    Agree(u32),
    Apart(u32),
    Latest(u32),
    Loses(NamedLoss<'a>),
}

/// What a line says; none where it is no line of such a text.
pub(crate) fn read_line(line: &[u8]) -> Option<TextLine<'_>>
    ensures { option_map form.line_in result ≡ form.line_of line.now }
{
    if line == b"isis-losses 1".as_slice() {
        return Some(TextLine::Head);
    }
    fields(Words::of(line))
}

/// What the words of a line say, a reader for each form.
fn fields<'a>(mut words: Words<'a>) -> Option<TextLine<'a>>
    ensures { option_map form.line_in result ≡ form.fields_of words.entry }
{
    let first = words.next()?;
    if first == b"most".as_slice() {
        return most(words);
    }
    if first == b"part".as_slice() {
        return part(words);
    }
    if first == b"schedules".as_slice() {
        return schedules(words);
    }
    if first == b"agree".as_slice() {
        return agree(words);
    }
    if first == b"apart".as_slice() {
        return apart(words);
    }
    if first == b"latest".as_slice() {
        return latest(words);
    }
    if first == b"lost".as_slice() {
        return lost(words);
    }
    None
}

fn most<'a>(mut words: Words<'a>) -> Option<TextLine<'a>>
    ensures { option_map form.line_in result ≡ form.most_form words.entry }
{
    let most = read_most(words.next()?)?;
    words.end()?;
    Some(TextLine::Most(most))
}

fn part<'a>(mut words: Words<'a>) -> Option<TextLine<'a>>
    ensures { option_map form.line_in result ≡ form.part_form words.entry }
{
    let number = words.next()?;
    let of = words.next()?;
    let part = part_from(read_up_to(number, 65535), read_up_to(of, 65535))?;
    words.end()?;
    Some(TextLine::Part(part))
}

fn schedules<'a>(mut words: Words<'a>) -> Option<TextLine<'a>>
    ensures { option_map form.line_in result ≡ form.schedules_form words.entry }
{
    let count = read_count(words.next()?)?;
    words.end()?;
    Some(TextLine::Schedules(count))
}

fn agree<'a>(mut words: Words<'a>) -> Option<TextLine<'a>>
    ensures { option_map form.line_in result ≡ form.agree_form words.entry }
{
    let second = read_number(words.next()?)?;
    words.end()?;
    Some(TextLine::Agree(second))
}

fn apart<'a>(mut words: Words<'a>) -> Option<TextLine<'a>>
    ensures { option_map form.line_in result ≡ form.apart_form words.entry }
{
    let count = read_count(words.next()?)?;
    words.end()?;
    Some(TextLine::Apart(count))
}

fn latest<'a>(mut words: Words<'a>) -> Option<TextLine<'a>>
    ensures { option_map form.line_in result ≡ form.latest_form words.entry }
{
    let second = read_number(words.next()?)?;
    words.end()?;
    Some(TextLine::Latest(second))
}

fn lost<'a>(mut words: Words<'a>) -> Option<TextLine<'a>>
    ensures { option_map form.line_in result ≡ form.lost_form words.entry }
{
    let place = read_number(words.next()?)? as usize;
    let datagram = read_number(words.next()?)? as usize;
    let name = words.next()?;
    if name.is_empty() {
        return None;
    }
    words.end()?;
    Some(TextLine::Loses(NamedLoss {
        place,
        datagram,
        name,
    }))
}

/// A number below 2^32.
fn read_number(word: &[u8]) -> Option<u32>
    ensures { result ≡ form.number_in word.now }
{
    read_up_to(word, 4_294_967_295)
}

/// How many schedules, at most 16,777,216.
fn read_count(word: &[u8]) -> Option<u32>
    ensures { result ≡ form.count_in word.now }
{
    read_up_to(word, 16_777_216)
}
