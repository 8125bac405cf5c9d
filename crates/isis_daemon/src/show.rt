//! The fields of PDUs, line by line.
ghost use Rattle.std.specs.Prelude.{◌≡◌, ◌≤◌, ◌++◌, [], false, length, ℕ, List, OnOk};
ghost use Rattle.isis_edge.specs.Faults.{Rose};
ghost use Rattle.isis_edge.specs.Told.{Took};
ghost use Rattle.isis_daemon.specs.Runs.{input_limit, Ends, IsTaken, IsDoneUnlessMemory};
ghost use Rattle.isis_daemon.specs.ShowText.{shown_line, shown_text};
ghost use Rattle.isis_daemon.specs.ShownLeft.{shown_left, count_of_lines_left};

mod lines;

use self::lines::{add_fault, add_octets};
use crate::command::Command;
use crate::shown::Shown;
use crate::status::Status;
use crate::texts::execute;
use hex::FromHexError;
use isis_base::{Octets, OutOfMemory};
use isis_edge::{Sink, Source, Text};
use line_cuts::cut;
use std::alloc::Global;

/// Reads lines of hex text, each one PDU, and writes their fields. Empty lines are skipped, but counted.
pub fn show<I: Source, O: Sink>(alloc: Global, input: &mut I, output: &mut O) -> Status
    ensures ends { Ends (Command.Show false) (I.gave input.old) (I.gave input.new) (I.ended input.new)
        (O.put output.old) (O.put output.new) result }
    ensures read_fault { result ≡ Status.ReadFault
        → Rose (I.faults input.old) (I.faults input.new) }
    ensures write_fault { result ≡ Status.WriteFault
        → Rose (O.faults output.old) (O.faults output.new) }
    ensures complete { (octets : List ℕ) → Took (I.gave input.old) (I.gave input.new) octets
        → IsTaken (Command.Show false) octets
        → ¬ Rose (I.faults input.old) (I.faults input.new)
        → ¬ Rose (O.faults output.old) (O.faults output.new)
        → IsDoneUnlessMemory result }
    ensures later { (I.faults input.old ≤ I.faults input.new)
        × (O.faults output.old ≤ O.faults output.new) }
{
    execute(alloc, Command::Show { long: false }, input, output)
}

impl<'t> Shown<'t> {
    /// All lines of an input.
    pub(crate) fn new(alloc: Global, long: bool, input: &'t [u8]) -> Shown<'t>
        requires { length input.now ≤ input_limit }
        ensures { shown_left result ≡ shown_text long input.now }
    {
        Shown {
            alloc,
            long,
            left: Some(input),
            number: 1,
        }
    }
}

impl<'t> Text for Shown<'t> {
    ghost rest = { shown_left };

    ghost calls = { count_of_lines_left };

    fn add_next(&mut self, page: &mut Octets) -> Result<bool, OutOfMemory> {
        let Some(rest) = self.left else {
            return Ok(false);
        };
        let (line, behind) = cut(rest, b'\n');
        add_line(self.alloc, page, self.long, self.number, line)?;
        self.left = behind;
        self.number += 1;
        Ok(true)
    }
}

/// Adds what a line of the input is shown as.
#[tactic(auto, unfolding(crate::specs::ShowText::shown_line))]
fn add_line(
    alloc: Global,
    text: &mut Octets,
    long: bool,
    number: usize,
    line: &[u8],
) -> Result<(), OutOfMemory>
    ensures { OnOk result (text.new ≡ text.old ++ shown_line long number line.now) }
{
    if line.is_empty() {
        return Ok(());
    }
    match hex::decode(alloc, line) {
        Ok(octets) => add_octets(alloc, text, long, number, octets.as_slice()),
        Err(FromHexError::OutOfMemory) => Err(OutOfMemory),
        Err(FromHexError::InvalidHexCharacter { index, .. }) => {
            add_fault(text, number, "Hex", index)
        }
        Err(_) => add_fault(text, number, "Hex", line.len()),
    }
}
