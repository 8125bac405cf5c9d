//! The entries of a journal, replayed as they are read.
ghost use Rattle.std.specs.Prelude.{◌≡◌, ◌⊎◌, ◌≤◌, ◌<◌, ◌+◌, ◌^◌, ◌++◌, ℕ, List, IfOk, IfErr, Err, OnOk, Some};
ghost use Rattle.isis_edge.specs.Faults.{Rose};
ghost use Rattle.isis_edge.specs.Told.{Took};
ghost use Rattle.journal_text.specs.declared.entry.WovenEntry.{WovenEntry};
ghost use Rattle.journal_text.specs.Entries as journal;
ghost use Rattle.line_cuts.specs.Words.{words_of};
ghost use Rattle.router_core.specs.Givens.{given};
ghost use Rattle.weave_model.specs.Entries.{next};
ghost use Rattle.weave_model.specs.Faults.{IsGood};
ghost use Rattle.weave_replay.specs.Entries.{entry_of};
ghost use Rattle.state_replay.specs.declared.fault.StateFault.{StateFault};
ghost use Rattle.state_replay.specs.Replays.{IsReplayed, AreAll, IsOutside, IsStopped, IsLineFault};

use crate::fault::StateFault;
use isis_edge::Source;
use journal_text::{JournalFault, read_entry};
use line_source::{LineRead, LineReader};
use router_core::Router;
use std::alloc::Global;
use weave_replay::{Outcome, replay_entry};

/// Replays at most so many entries, of which the first stands behind this line of the input, and answers how many there were.
pub(crate) fn replay_lines<I: Source>(
    alloc: Global,
    router: &mut Router,
    lines: &mut LineReader,
    input: &mut I,
    head: u64,
    most: u64,
) -> Result<u64, StateFault>
    requires { head + most + 1 < 2 ^ 64 }
    ensures ok { IfOk result (λ done. (octets rest : List ℕ)
        × Took (I.gave input.old) (I.gave input.new) octets
        × IsReplayed router.old router.new (lines.old.pending ++ octets) rest done
        × AreAll most done (I.ended input.new) rest) }
    ensures few { IfOk result (λ done. done ≤ most) }
    ensures err { IfErr result (λ fault. (octets : List ℕ)
        × Took (I.gave input.old) (I.gave input.new) octets
        × (IsOutside fault
        ⊎ IsStopped router.old (lines.old.pending ++ octets) head most fault)) }
    ensures read_fault { result ≡ Err StateFault.Read
        → Rose (I.faults input.old) (I.faults input.new) }
    ensures later { I.faults input.old ≤ I.faults input.new }
{
    let mut done = 0u64;
    while done < most {
        match lines.next(input) {
            Ok(LineRead::Line) => {}
            Ok(LineRead::Rest) => return Ok(done),
            Err(fault) => return Err(StateFault::from(fault)),
        }
        match replay_line(alloc, router, lines.line(), head, done + 1) {
            Ok(()) => {}
            Err(fault) => return Err(fault),
        }
        done += 1;
    }
    Ok(done)
}

/// Replays the entry of this number, of its line.
fn replay_line(
    alloc: Global,
    router: &mut Router,
    line: &[u8],
    head: u64,
    number: u64,
) -> Result<(), StateFault>
    requires line { head + number < 2 ^ 64 }
    requires number { number + 1 < 2 ^ 64 }
    ensures good { OnOk result ((e : WovenEntry)
        × (journal.entry_of number (words_of line.now) ≡ Some e)
        × IsGood given router.old (entry_of e)
        × (router.new ≡ next given router.old (entry_of e).deed)) }
    ensures err { IfErr result (λ fault. (fault ≡ StateFault.OutOfMemory)
        ⊎ IsLineFault head number router.old line.now fault) }
{
    let entry = match read_entry(alloc, number as usize, line) {
        Ok(entry) => entry,
        Err(JournalFault::Line { .. }) => {
            return Err(StateFault::Form {
                line: head + number,
            });
        }
        Err(JournalFault::OutOfMemory) => return Err(StateFault::OutOfMemory),
    };
    match replay_entry(router, &entry) {
        Ok(Outcome::Good) => Ok(()),
        Ok(Outcome::OfEvent) => Err(StateFault::Event { entry: number }),
        Ok(Outcome::OfReply) => Err(StateFault::Reply { entry: number }),
        Err(_) => Err(StateFault::OutOfMemory),
    }
}
