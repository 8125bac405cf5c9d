//! The configuration: what stands before the head of the journal.
ghost use Rattle.std.specs.Prelude.{◌≡◌, ◌≤◌, ◌<◌, ◌+◌, ◌^◌, ℕ, List, [], ◌∷◌, ◌++◌, OnOk, IfOk, IfErr, Err};
ghost use Rattle.isis_edge.specs.Faults.{Rose};
ghost use Rattle.isis_edge.specs.Told.{Took};
ghost use Rattle.state_replay.specs.declared.fault.StateFault.{StateFault};
ghost use Rattle.state_replay.specs.Ends.{IsRefused};
ghost use Rattle.state_replay.specs.Fronts.{IsFront};
ghost use Rattle.state_replay.specs.Inputs as inputs;

use crate::fault::StateFault;
use isis_base::{Octets, OutOfMemory};
use isis_edge::Source;
use line_source::{LINE_LIMIT, LineRead, LineReader};
use std::alloc::Global;

/// What stands before a journal's head: the text of the configuration, and the number of its lines.
#[derive(Drop)]
pub(crate) struct Front {
    pub(crate) text: Octets,
    pub(crate) lines: u64,
}

/// Reads to the first line that is the head of a journal.
pub(crate) fn read_front<I: Source>(
    alloc: Global,
    lines: &mut LineReader,
    input: &mut I,
) -> Result<Front, StateFault>
    requires { lines.old.pending ≡ [] }
    ensures ok { IfOk result (λ front. (octets : List ℕ)
        × Took (I.gave input.old) (I.gave input.new) octets
        × IsFront octets front lines.new.pending) }
    ensures few { IfOk result (λ front. front.lines ≤ 16777216) }
    ensures err { IfErr result (λ fault. (octets : List ℕ)
        × Took (I.gave input.old) (I.gave input.new) octets
        × ((boot most : ℕ) → IsRefused boot most octets (I.ended input.new) fault)) }
    ensures read_fault { result ≡ Err StateFault.Read
        → Rose (I.faults input.old) (I.faults input.new) }
    ensures later { I.faults input.old ≤ I.faults input.new }
{
    let mut front = Front {
        text: Octets::new(alloc),
        lines: 0,
    };
    'reads: loop {
        match lines.next(input) {
            Ok(LineRead::Line) => {}
            Ok(LineRead::Rest) => return Err(headless(&front)),
            Err(fault) => return Err(StateFault::from(fault)),
        }
        if is_head(lines.line()) {
            return Ok(front);
        }
        match add_line(&mut front, lines.line()) {
            Ok(()) => {}
            Err(OutOfMemory) => return Err(StateFault::OutOfMemory),
        }
        if front.text.len() > LINE_LIMIT {
            return Err(StateFault::TooLong);
        }
    }
}

/// The fault of an input without a head: it ends in the line behind these.
fn headless(front: &Front) -> StateFault
    requires { front.now.lines + 1 < 2 ^ 64 }
    ensures { result ≡ StateFault.Head (front.now.lines + 1) }
{
    StateFault::Head {
        line: front.lines + 1,
    }
}

/// Whether a line is the head of a journal.
fn is_head(line: &[u8]) -> bool
    ensures { result ≡ inputs.is_head line.now }
{
    line == b"isis-journal 1".as_slice()
}

/// Adds a line with its LF.
fn add_line(front: &mut Front, line: &[u8]) -> Result<(), OutOfMemory>
    requires { front.old.lines + 1 < 2 ^ 64 }
    ensures text { OnOk result (front.new.text ≡ front.old.text ++ (line.now ++ 10 ∷ [])) }
    ensures lines { OnOk result (front.new.lines ≡ front.old.lines + 1) }
{
    front.text.extend(line)?;
    front.text.push(b'\n')?;
    front.lines += 1;
    Ok(())
}
