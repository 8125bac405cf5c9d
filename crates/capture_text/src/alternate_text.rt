//! The text of the alternates of a system.
ghost use Rattle.std.specs.Prelude.{◌≡◌, ◌≤◌, Err, IsOkUnless};
ghost use Rattle.isis_edge.specs.Faults.{Rose};
ghost use Rattle.capture_text.specs.AlternatesText.{IsAlternatesText};
ghost use Rattle.capture_text.specs.TextEnds.{TextEnds};
ghost use Rattle.capture_text.specs.Left.{alternates_left, alternate_calls};

use crate::absence::{Absence, absence_of};
use crate::alternate_lines::add_backup;
use crate::backups::all_backups;
use crate::head::add_head;
use crate::left::{AlternateText, Counts};
use crate::reading::read_capture;
use isis_base::{Level, Octets, OutOfMemory, SystemId};
use isis_edge::{Sink, Text, TextFailed, write_text};
use std::alloc::Global;

/// Writes the loop-free alternates of a system (RFC 5286 3) for each other system that it reaches and each
/// next hop to it, in order, by the LSPs of a level that an input has in hex, a line each. Costs are in
/// units of metrics. Answers what the LSPs lack of the system. Nothing is written before all alternates are found.
pub fn write_alternates<O: Sink>(
    alloc: Global,
    level: Level,
    system: SystemId,
    input: &[u8],
    output: &mut O,
) -> Result<Option<Absence>, TextFailed>
    ensures ends { TextEnds (IsAlternatesText level system input.now) (O.put output.old)
        (O.put output.new) result }
    ensures cause { result ≡ Err TextFailed.Write
        → Rose (O.faults output.old) (O.faults output.new) }
    ensures later { O.faults output.old ≤ O.faults output.new }
    ensures complete { ¬ Rose (O.faults output.old) (O.faults output.new)
        → IsOkUnless result TextFailed.OutOfMemory }
{
    let read = match read_capture(alloc, level, input) {
        Ok(read) => read,
        Err(OutOfMemory) => return Err(TextFailed::OutOfMemory),
    };
    let absence = absence_of(&read.capture, system);
    let graph = match read.capture.graph(system) {
        Ok(graph) => graph,
        Err(OutOfMemory) => return Err(TextFailed::OutOfMemory),
    };
    let backups = match all_backups(alloc, &graph) {
        Ok(backups) => backups,
        Err(OutOfMemory) => return Err(TextFailed::OutOfMemory),
    };
    let mut text = AlternateText {
        head: Some(Counts {
            kept: read.kept,
            skipped: read.skipped,
        }),
        backups: backups.as_slice(),
    };
    match write_text(alloc, &mut text, output) {
        Ok(()) => Ok(absence),
        Err(failed) => Err(failed),
    }
}

impl<'t> Text for AlternateText<'t> {
    ghost rest = { alternates_left };

    ghost calls = { alternate_calls };

    fn add_next(&mut self, page: &mut Octets) -> Result<bool, OutOfMemory> {
        if let Some(counts) = self.head {
            add_head(page, b"isis-alternates 1", counts)?;
            self.head = None;
            return Ok(true);
        }
        if let [backup, others @ ..] = self.backups {
            add_backup(page, backup)?;
            self.backups = others;
            return Ok(true);
        }
        Ok(false)
    }
}
