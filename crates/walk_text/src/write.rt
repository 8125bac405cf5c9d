//! The call that writes the walk of a packet after a script.
ghost use Rattle.std.specs.Prelude.{◌≡◌, ◌≤◌, Err};
ghost use Rattle.isis_edge.specs.Faults.{Rose};
ghost use Rattle.walk_text.specs.Walks.{WalkTextEnds};

use crate::fault::WalkFault;
use crate::find::find_walk;
use crate::lines::walk_text;
use isis_base::{OutOfMemory, Prefix};
use isis_edge::{Sink, WriteFailed, write_all};
use lab_text::Script;
use std::alloc::Global;

/// Plays a script and writes the walk of a packet from the router of this name to a prefix: the routers after it, each handing
/// the packet to its least next hop, and the cost of its route, in units of metrics. Whichever next hops the packet takes, it
/// arrives at the one router whose own the prefix is, at that cost, after fewer moves than there are routers (RFC 1195 3.10).
/// Whether links carry it isn't said.
///
/// Before the run it is told where the script is a keys script, or has no router of this name; then the first line whose event
/// is refused, or which passes a limit, as `run_script` tells it; and after the run, as a reason, what `forward` answers.
/// Nothing is written before the walk is found.
pub fn write_walk<O: Sink>(
    alloc: Global,
    script: &Script<'_>,
    name: &str,
    prefix: Prefix,
    out: &mut O,
) -> Result<(), WalkFault>
    ensures ends { WalkTextEnds script.now name.now prefix (O.put out.old) (O.put out.new) result }
    ensures cause { result ≡ Err WalkFault.Write → Rose (O.faults out.old) (O.faults out.new) }
    ensures later { O.faults out.old ≤ O.faults out.new }
{
    let walked = match find_walk(alloc, script, name, prefix) {
        Ok(walked) => walked,
        Err(fault) => return Err(fault),
    };
    let text = match walk_text(alloc, script, name, prefix, &walked) {
        Ok(text) => text,
        Err(OutOfMemory) => return Err(WalkFault::OutOfMemory),
    };
    match write_all(out, text.as_slice()) {
        Ok(()) => Ok(()),
        Err(WriteFailed) => Err(WalkFault::Write),
    }
}
