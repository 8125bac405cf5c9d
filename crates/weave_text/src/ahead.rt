//! The part of a text ahead of its blocks.
ghost use Rattle.std.specs.Prelude.{◌≡◌, [], ◌∷◌, ◌++◌, take, IfOk, OnOk};
ghost use Rattle.line_cuts.specs.Words.{words_of};
ghost use Rattle.lab_script.specs.Scripts as script;
ghost use Rattle.weave_text.specs.Lines.{all_of, text_of};
ghost use Rattle.weave_text.specs.Ahead as ahead;
ghost use Rattle.weave_text.specs.Ahead.{behind_many, told_in};

use crate::input_lines::Lines;
use isis_base::{Octets, OutOfMemory};
use line_cuts::Words;
use std::alloc::Global;

/// The lines behind a text's head; `None` exactly where the first line isn't `isis-weave 1`.
pub(crate) fn behind_head(text: &[u8]) -> Option<Lines<'_>>
    ensures { result ≡ ahead.behind_head (all_of text.now) (all_of text.now).lines }
{
    let mut lines = Lines::of(text);
    let Some(head) = lines.next() else {
        return None;
    };
    if head != b"isis-weave 1".as_slice() {
        return None;
    }
    Some(lines)
}

/// How many lines stand ahead of the blocks: those that are skipped, and those whose first word is
/// that of a setup or change line; and what is left behind them.
pub(crate) fn pass_ahead<'a>(lines: &Lines<'a>) -> (usize, Lines<'a>)
    ensures count { result.0 ≡ ahead.ahead_count lines.now.lines }
    ensures behind { result.1 ≡ behind_many (ahead.ahead_count lines.now.lines) lines.now }
{
    let first = lines.number();
    let mut behind = lines.again();
    let mut left = lines.again();
    while let Some(line) = left.next() {
        if !is_ahead(line) {
            return (behind.number() - first, behind);
        }
        behind = left.again();
    }
    (behind.number() - first, behind)
}

/// Whether a line may stand ahead of the blocks.
fn is_ahead(line: &[u8]) -> bool
    ensures { result ≡ ahead.is_ahead line.now }
{
    is_skipped(line) || is_layout(line)
}

/// Whether a line says nothing.
pub(crate) fn is_skipped(line: &[u8]) -> bool
    ensures { result ≡ script.is_skipped line.now }
{
    match line {
        [] => true,
        [byte, ..] => *byte == b'#',
    }
}

/// Whether a line's first word is that of a setup or change line.
pub(crate) fn is_layout(line: &[u8]) -> bool
    ensures { result ≡ ahead.is_layout (words_of line.now) }
{
    let mut words = Words::of(line);
    match words.next() {
        Some(first) => is_layout_word(first),
        None => false,
    }
}

fn is_layout_word(first: &[u8]) -> bool
    ensures { result ≡ ahead.is_layout_word first.now }
{
    first == b"router".as_slice()
        || first == b"link".as_slice()
        || first == b"lan".as_slice()
        || first == b"key".as_slice()
        || first == b"prefix".as_slice()
        || first == b"metric".as_slice()
        || first == b"overload".as_slice()
}

/// The text of a lab script with the first so many lines behind its head.
pub(crate) fn script_text(
    alloc: Global,
    lines: &Lines<'_>,
    count: usize,
) -> Result<Octets, OutOfMemory>
    ensures { IfOk result (λ text. text ≡ ahead.script_text (take count lines.now.lines)) }
{
    let mut text = Octets::new(alloc);
    text.extend(b"isis-lab 1\n")?;
    let mut left = lines.again();
    for place in 0..count {
        let Some(line) = left.next() else {
            return Ok(text);
        };
        match add_line(&mut text, line) {
            Ok(()) => {}
            Err(error) => return Err(error),
        }
    }
    Ok(text)
}

/// Adds those of the first so many lines that aren't skipped.
pub(crate) fn add_told(
    text: &mut Octets,
    lines: &Lines<'_>,
    count: usize,
) -> Result<(), OutOfMemory>
    ensures { OnOk result (text.new ≡ text.old ++ text_of (told_in (take count lines.now.lines))) }
{
    let mut left = lines.again();
    for place in 0..count {
        let Some(line) = left.next() else {
            return Ok(());
        };
        match add_unless_skipped(text, line) {
            Ok(()) => {}
            Err(error) => return Err(error),
        }
    }
    Ok(())
}

fn add_unless_skipped(text: &mut Octets, line: &[u8]) -> Result<(), OutOfMemory>
    ensures { OnOk result (text.new ≡ text.old ++ text_of (ahead.told_of line.now)) }
{
    if is_skipped(line) {
        return Ok(());
    }
    add_line(text, line)
}

/// Adds a line, with LF behind it.
pub(crate) fn add_line(text: &mut Octets, line: &[u8]) -> Result<(), OutOfMemory>
    ensures { OnOk result (text.new ≡ text.old ++ text_of (line.now ∷ [])) }
{
    text.extend(line)?;
    text.extend(b"\n")
}
