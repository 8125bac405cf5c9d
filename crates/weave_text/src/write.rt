//! The call that writes the weaving of a text's journals.
ghost use Rattle.std.specs.Prelude.{◌≡◌, ◌≤◌, Err};
ghost use Rattle.isis_edge.specs.Faults.{Rose};
ghost use Rattle.weave_text.specs.Answers.{Weaves};
ghost use Rattle.weave_text.specs.Weaves.{WeaveTextEnds};
ghost use Rattle.weave_text.specs.Weavings.{weaving_of};

use crate::ahead::behind_head;
use crate::fault::WeaveTextFault;
use crate::woven::weave_lines;
use isis_base::Octets;
use isis_edge::{Sink, WriteFailed, write_all};
use lab_text::Reason;
use std::alloc::Global;

/// Reads a text, weaves the journals in it, and writes the schedule as a lab script. The text is `isis-weave 1`, the setup lines
/// of a lab script, its lines `prefix`, `metric` and `overload`, and then for each journal a block: `journal ROUTER`, the
/// journal's lines, `end`. Empty lines and those that begin with `#` are skipped outside of blocks. What is written is
/// `isis-lab 1`, the setup and change lines as they were read, and the events of the schedule: each router's are those of its
/// journals in order, with a restart between two, and each take is a delivery of an earlier datagram with those octets. It is
/// read again as a lab script that begins with the same network, and whose events are those of the change lines, and then those of
/// the schedule.
///
/// The first faulty line is told; a limit that setup and change lines pass comes before faults of later lines. Then what `weave`
/// tells: the first entry with a fault, a limit, or the first entry that no schedule of the network comes to. Nothing is written
/// before the schedule is found.
pub fn write_weave<O: Sink>(alloc: Global, text: &[u8], out: &mut O) -> Result<(), WeaveTextFault>
    ensures ends { WeaveTextEnds text.now (O.put out.old) (O.put out.new) result }
    ensures cause { result ≡ Err WeaveTextFault.Write
        → Rose (O.faults out.old) (O.faults out.new) }
    ensures later { O.faults out.old ≤ O.faults out.new }
{
    let woven = match woven_of(alloc, text) {
        Ok(woven) => woven,
        Err(fault) => return Err(fault),
    };
    match write_all(out, woven.as_slice()) {
        Ok(()) => Ok(()),
        Err(WriteFailed) => Err(WeaveTextFault::Write),
    }
}

/// The lab script that a text's weaving is.
fn woven_of(alloc: Global, text: &[u8]) -> Result<Octets, WeaveTextFault>
    ensures { Weaves (weaving_of text.now) result }
{
    let Some(lines) = behind_head(text) else {
        return Err(WeaveTextFault::Refused {
            line: 1,
            reason: Reason::Head,
        });
    };
    weave_lines(alloc, &lines)
}
