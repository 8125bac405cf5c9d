//! The line that begins a block, or why it begins none.
ghost use Rattle.std.specs.Prelude.{◌≡◌, Ok, IfOk};
ghost use Rattle.line_cuts.specs.Words.{words_of};
ghost use Rattle.lab_script.specs.Gives.{Answers};
ghost use Rattle.lab_script.specs.LabJudged.{where_known};
ghost use Rattle.lab_script.specs.Scripts.{names_in};
ghost use Rattle.weave_text.specs.Blocks as block;

use crate::ahead::{add_line, is_layout};
use isis_base::{Octets, OutOfMemory};
use lab_script::{Name, Reason, Script, ScriptFault, read_name, read_script};
use line_cuts::Words;
use std::alloc::Global;

/// The router whose block a line begins.
pub(crate) fn begin(
    alloc: Global,
    script: &Script<'_>,
    number: usize,
    line: &[u8],
) -> Result<usize, ScriptFault>
    ensures { Answers result
        (where_known number (block.router_of (names_in script.now) line.now) Ok) }
{
    let Some(name) = begun_by(line) else {
        return match why_none(alloc, line) {
            Ok(reason) => Err(ScriptFault::Refused {
                line: number,
                reason,
            }),
            Err(OutOfMemory) => Err(ScriptFault::OutOfMemory),
        };
    };
    match script.router(name.letters()) {
        Some(router) => Ok(router),
        None => Err(ScriptFault::Refused {
            line: number,
            reason: Reason::Name,
        }),
    }
}

/// The router's name, of `journal ROUTER`.
fn begun_by(line: &[u8]) -> Option<Name<'_>>
    ensures { result ≡ block.begun_by (words_of line.now) }
{
    let mut words = Words::of(line);
    let first = words.next()?;
    if first == b"journal".as_slice() {
        return router(words);
    }
    None
}

fn router<'a>(mut words: Words<'a>) -> Option<Name<'a>>
    ensures { result ≡ block.journal_form words.entry }
{
    let name = read_name(words.next()?)?;
    words.end()?;
    Some(name)
}

/// Why a line begins no block: it is a setup or change line, or it has no form.
fn why_none(alloc: Global, line: &[u8]) -> Result<Reason, OutOfMemory>
    ensures { IfOk result (λ reason. reason ≡ block.why_none line.now) }
{
    if !is_layout(line) {
        return Ok(Reason::Form);
    }
    if has_form(alloc, line)? {
        return Ok(Reason::Late);
    }
    Ok(Reason::Form)
}

/// Whether a line has the form of a lab script's line: a script of this line alone isn't refused for it.
fn has_form(alloc: Global, line: &[u8]) -> Result<bool, OutOfMemory>
    ensures { IfOk result (λ has. has ≡ block.has_form line.now) }
{
    let mut text = Octets::new(alloc);
    text.extend(b"isis-lab 1\n")?;
    add_line(&mut text, line)?;
    match read_script(alloc, text.as_slice()) {
        Ok(script) => {
            drop(script);
            Ok(true)
        }
        Err(ScriptFault::Refused { line: _, reason }) => Ok(!is_form(reason)),
        Err(ScriptFault::Limit(_)) => Ok(true),
        Err(ScriptFault::OutOfMemory) => Err(OutOfMemory),
    }
}

fn is_form(reason: Reason) -> bool
    ensures { result ≡ block.is_form reason }
{
    match reason {
        Reason::Form => true,
        Reason::Head
        | Reason::Late
        | Reason::Name
        | Reason::Again
        | Reason::NotOn
        | Reason::NotSent => false,
    }
}
