//! The weaving of a text's journals.
ghost use Rattle.std.specs.Prelude.{◌≡◌, take, Ok};
ghost use Rattle.lab_script.specs.Scripts.{names_in};
ghost use Rattle.weave_text.specs.Ahead.{ahead_count, behind_many};
ghost use Rattle.weave_text.specs.Weavings.{script_in, said_in, said_by};
ghost use Rattle.weave_text.specs.Answers.{Weaves};

use crate::ahead::{pass_ahead, script_text};
use crate::blocks::read_blocks;
use crate::fault::WeaveTextFault;
use crate::input_lines::Lines;
use crate::laid::{end_of, refused_by};
use crate::lines::woven_text;
use crate::named::has_schedule;
use isis_base::{Octets, OutOfMemory};
use lab_text::{Script, read_script};
use std::alloc::Global;
use weave::weave;

/// The lab script whose schedule weaves the journals of the lines behind a head.
#[tactic(auto, unfolding(crate::specs::Weavings::said_in))]
pub(crate) fn weave_lines(alloc: Global, lines: &Lines<'_>) -> Result<Octets, WeaveTextFault>
    ensures { Weaves (said_in lines.now) result }
{
    let (count, behind) = pass_ahead(lines);
    let setup = match script_text(alloc, lines, count) {
        Ok(setup) => setup,
        Err(OutOfMemory) => return Err(WeaveTextFault::OutOfMemory),
    };
    match read_script(alloc, setup.as_slice()) {
        Ok(script) => weave_behind(alloc, lines, count, &script, &behind),
        Err(fault) => Err(refused_by(alloc, lines, count, fault)),
    }
}

/// The same, where the first so many lines are this script.
fn weave_behind(
    alloc: Global,
    lines: &Lines<'_>,
    count: usize,
    script: &Script<'_>,
    behind: &Lines<'_>,
) -> Result<Octets, WeaveTextFault>
    requires ahead { count ≡ ahead_count lines.now.lines }
    requires read { script_in (take count lines.now.lines) ≡ Ok script.now }
    requires left { behind.now ≡ behind_many count lines.now }
    ensures { Weaves (said_by count lines.now) result }
{
    lines.facts();
    let net = match end_of(alloc, script) {
        Ok(net) => net,
        Err(fault) => return Err(fault),
    };
    let journals = match read_blocks(alloc, script, behind) {
        Ok(journals) => journals,
        Err(fault) => {
            drop(net);
            return Err(WeaveTextFault::from(fault));
        }
    };
    let (net, schedule) = match weave(alloc, net, journals.as_slice()) {
        Ok(woven) => woven,
        Err(fault) => return Err(WeaveTextFault::from(fault)),
    };
    // The network is the script's, so the script should name what any schedule of it is of. That isn't proved
    // here: it is checked, and a schedule that fails isn't written.
    if !has_schedule(script, &net, &schedule) {
        drop(net);
        return Err(WeaveTextFault::OutOfMemory);
    }
    let text = woven_text(alloc, lines, count, script, &net, &schedule);
    drop(net);
    match text {
        Ok(text) => Ok(text),
        Err(OutOfMemory) => Err(WeaveTextFault::OutOfMemory),
    }
}
