//! The call that joins texts of losses.
ghost use Rattle.std.specs.Prelude.{◌≡◌, IfOk, IfErr};
ghost use Rattle.line_cuts.specs.Cuts.{parts_behind};
ghost use Rattle.losses_text.specs.Merging.{IsNotMerged, Merges, Read, fault_at, is_end, reading_of};

use crate::joining::{Joined, LineFault};
use crate::lines::losses_text;
use crate::merge_fault::MergeFault;
use isis_base::Octets;
use line_cuts::cut;
use std::alloc::Global;

/// Joins the texts of all parts of the schedules of one run, one behind another in any order, to the text of the whole: how
/// many schedules there are and how many of them are apart are the sums, the latest second is the greatest, and what is lost
/// then has the first places. The first line that isn't as it must be is refused; `Parts` comes where a part isn't there, or
/// the last text isn't whole.
pub fn merge_losses(alloc: Global, texts: &[u8]) -> Result<Octets, MergeFault>
    ensures { Merges texts.now result }
{
    let joined = match read_texts(alloc, texts) {
        Ok(joined) => joined,
        Err(fault) => return Err(fault),
    };
    let Some(losses) = joined.whole() else {
        return Err(MergeFault::Parts);
    };
    match losses_text(alloc, &losses) {
        Ok(text) => Ok(text),
        Err(_) => Err(MergeFault::OutOfMemory),
    }
}

/// What the lines of texts say, up to the first that is refused.
fn read_texts(alloc: Global, texts: &[u8]) -> Result<Joined<'_>, MergeFault>
    ensures ok { IfOk result (λ joined. reading_of texts.now ≡ Read joined) }
    ensures err { IfErr result (IsNotMerged texts.now) }
{
    let mut joined = Joined::new(alloc);
    let mut number = 1usize;
    let mut left = Some(texts);
    while let Some(rest) = left {
        let (line, behind) = cut(rest, b'\n');
        if ends(line, behind) {
            return Ok(joined);
        }
        match joined.take_line(line) {
            Ok(()) => {}
            Err(fault) => return Err(fault_at(number, fault)),
        }
        number += 1;
        left = behind;
    }
    Ok(joined)
}

/// Why texts aren't joined, where a line has a fault.
fn fault_at(line: usize, fault: LineFault) -> MergeFault
    ensures { result ≡ fault_at line fault }
{
    match fault {
        LineFault::Refused(reason) => MergeFault::Refused { line, reason },
        LineFault::OutOfMemory => MergeFault::OutOfMemory,
    }
}

/// Whether this is the empty line behind the last LF.
fn ends(line: &[u8], behind: Option<&[u8]>) -> bool
    ensures { result ≡ is_end line.now (parts_behind 10 behind.entry) }
{
    match behind {
        Some(_) => false,
        None => line.is_empty(),
    }
}
