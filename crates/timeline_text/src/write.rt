//! The call that writes the timeline of an address.
ghost use Rattle.std.specs.Prelude.{◌≡◌, ◌≤◌, Err};
ghost use Rattle.isis_edge.specs.Faults.{Rose};
ghost use Rattle.walk_text.specs.declared.fault.WalkFault.TheVariants as failed;
ghost use Rattle.timeline_text.specs.Timelines.{Finds, TimelineEnds};

use crate::moments::timeline_of;
use isis_base::Octets;
use isis_edge::{Sink, WriteFailed, write_all};
use lab_text::{RunFault, Script};
use std::alloc::Global;
use walk_text::{WalkFault, WalkReason};

/// Plays a lab script, and writes a line for each event line and for each second of a line `run` at which something changed: how
/// many groups the routers of each level are, how many flags they have, and from how many routers packets to an address arrive,
/// may loop or may be lost by the routers' own routes (RFC 1195 3.10); and at the end the sums of the last three over all
/// seconds, in router-seconds. Whether links carry packets isn't said.
///
/// The answer is `NoWalk` where the script is a keys script; then comes the first line whose event is refused, or which passes a
/// limit, as `run_script` says it. Nothing is written before the whole timeline is made.
pub fn write_timeline<O: Sink>(
    alloc: Global,
    script: &Script<'_>,
    address: u32,
    out: &mut O,
) -> Result<(), WalkFault>
    ensures ends { TimelineEnds script.now address (O.put out.old) (O.put out.new) result }
    ensures cause { result ≡ Err failed.Write → Rose (O.faults out.old) (O.faults out.new) }
    ensures later { O.faults out.old ≤ O.faults out.new }
{
    let text = match find_timeline(alloc, script, address) {
        Ok(text) => text,
        Err(fault) => return Err(fault),
    };
    match write_all(out, text.as_slice()) {
        Ok(()) => Ok(()),
        Err(WriteFailed) => Err(WalkFault::Write),
    }
}

/// The timeline of a script, or why there is none.
fn find_timeline(alloc: Global, script: &Script<'_>, address: u32) -> Result<Octets, WalkFault>
    ensures { Finds script.now address result }
{
    match script {
        Script::Lab(lab) => match timeline_of(alloc, lab, address) {
            Ok(text) => Ok(text),
            Err(fault) => Err(WalkFault::from(RunFault::from(fault))),
        },
        Script::Keys(_) => Err(WalkFault::NoWalk(WalkReason::Keys)),
    }
}
