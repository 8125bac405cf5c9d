//! The line of some words, a reader for each form.
ghost use Rattle.std.specs.Prelude.{◌≡◌};
ghost use Rattle.lab_script.specs.KeysLines as form;
ghost use Rattle.line_cuts.specs.Words.{words_of};

use crate::fields::{read_copy, read_id, read_key, read_name};
use crate::line::KeysLine;
use line_cuts::Words;

/// What a line of a keys script says; none where it has none of the forms.
pub(crate) fn read_line(line: &[u8]) -> Option<KeysLine<'_>>
    ensures { result ≡ form.line_of (words_of line.now) }
{
    let mut words = Words::of(line);
    let first = words.next()?;
    if first == b"router".as_slice() {
        return router(words);
    }
    if first == b"link".as_slice() {
        return link(words);
    }
    if first == b"issue".as_slice() {
        return issue(words);
    }
    if first == b"pass".as_slice() {
        return pass(words);
    }
    None
}

fn router<'a>(mut words: Words<'a>) -> Option<KeysLine<'a>>
    ensures { result ≡ form.router_form words.entry }
{
    let name = read_name(words.next()?)?;
    words.end()?;
    Some(KeysLine::Router { name })
}

fn link<'a>(mut words: Words<'a>) -> Option<KeysLine<'a>>
    ensures { result ≡ form.link_form words.entry }
{
    let first = read_name(words.next()?)?;
    let second = read_name(words.next()?)?;
    words.end()?;
    Some(KeysLine::Link { first, second })
}

fn issue<'a>(mut words: Words<'a>) -> Option<KeysLine<'a>>
    ensures { result ≡ form.issue_form words.entry }
{
    let router = read_name(words.next()?)?;
    let id = read_id(words.next()?)?;
    let number = words.next()?;
    let mark = words.next()?;
    let key = read_key(number, mark)?;
    words.end()?;
    Some(KeysLine::Issue { router, id, key })
}

fn pass<'a>(mut words: Words<'a>) -> Option<KeysLine<'a>>
    ensures { result ≡ form.pass_form words.entry }
{
    let copy = read_copy(words.next()?)?;
    let from = read_name(words.next()?)?;
    let to = read_name(words.next()?)?;
    words.end()?;
    Some(KeysLine::Pass { copy, from, to })
}
