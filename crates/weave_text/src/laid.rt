//! The part of a text ahead of its journals, played.
ghost use Rattle.std.specs.Prelude.{◌≡◌, take, length, Ok, Err, IfOk};
ghost use Rattle.lab_script.specs.Scripts.{names_in};
ghost use Rattle.weave_text.specs.Weavings as said;
ghost use Rattle.weave_text.specs.Weavings.{end_in, script_in, said_by};
ghost use Rattle.weave_text.specs.Blocks.{IsFaultOf};
ghost use Rattle.weave_text.specs.Answers.{PlaysTo, IsRefusedBy, IsLimitTold, Weaves};

use crate::ahead::script_text;
use crate::fault::WeaveTextFault;
use crate::input_lines::Lines;
use isis_base::OutOfMemory;
use lab_text::{Reason, Script, ScriptFault, play_script, read_script};
use std::alloc::Global;
use weave::{LimitName, Network};

/// The network at a script's end.
pub(crate) fn end_of(alloc: Global, script: &Script<'_>) -> Result<Network, WeaveTextFault>
    ensures ends { PlaysTo (end_in script.now) result }
    ensures routers { IfOk result (λ net.
        length net.seen.routers ≡ length (names_in script.now)) }
{
    if !script.is_lab() {
        return Err(WeaveTextFault::Refused {
            line: 1,
            reason: Reason::Head,
        });
    }
    match play_script(alloc, script) {
        Ok(net) => Ok(net),
        Err(fault) => Err(WeaveTextFault::from(fault)),
    }
}

/// What is told where the first so many lines aren't read as a script. Where one of them is refused, a limit that the lines
/// before it pass comes first.
pub(crate) fn refused_by(
    alloc: Global,
    lines: &Lines<'_>,
    count: usize,
    fault: ScriptFault,
) -> WeaveTextFault
    requires { IsFaultOf (script_in (take count lines.now.lines)) fault }
    ensures { Weaves (said_by count lines.now) (Err result) }
{
    match fault {
        ScriptFault::Refused { line, reason } => refused_at(alloc, lines, count, line, reason),
        ScriptFault::Limit(which) => WeaveTextFault::Limit(which),
        ScriptFault::OutOfMemory => WeaveTextFault::OutOfMemory,
    }
}

/// What is told where a line of the first so many is refused.
fn refused_at(
    alloc: Global,
    lines: &Lines<'_>,
    count: usize,
    line: usize,
    reason: Reason,
) -> WeaveTextFault
    ensures { IsRefusedBy
        (said.unless_limited (said.limit_before line (take count lines.now.lines)) line reason)
        result }
{
    match limit_before(alloc, lines, count, line) {
        Ok(Some(which)) => WeaveTextFault::Limit(which),
        Ok(None) => WeaveTextFault::Refused { line, reason },
        Err(OutOfMemory) => WeaveTextFault::OutOfMemory,
    }
}

/// The limit that the lines before one of the first so many pass.
fn limit_before(
    alloc: Global,
    lines: &Lines<'_>,
    count: usize,
    line: usize,
) -> Result<Option<LimitName>, OutOfMemory>
    ensures { IfOk result (λ which. which ≡ said.limit_before line (take count lines.now.lines)) }
{
    let earlier = count.min(line.saturating_sub(2));
    let text = script_text(alloc, lines, earlier)?;
    match read_script(alloc, text.as_slice()) {
        Ok(script) => limit_of(alloc, &script),
        Err(fault) => limit_told(fault),
    }
}

/// The limit that a script's lines pass.
fn limit_of(alloc: Global, script: &Script<'_>) -> Result<Option<LimitName>, OutOfMemory>
    ensures { IfOk result (λ which. which ≡ said.limit_of (Ok script.now)) }
{
    match end_of(alloc, script) {
        Ok(net) => {
            drop(net);
            Ok(None)
        }
        Err(WeaveTextFault::Limit(which)) => Ok(Some(which)),
        Err(WeaveTextFault::OutOfMemory) => Err(OutOfMemory),
        Err(_) => Ok(None),
    }
}

/// The limit that a text passes which can't be read.
fn limit_told(fault: ScriptFault) -> Result<Option<LimitName>, OutOfMemory>
    ensures { IfOk result (IsLimitTold fault) }
{
    match fault {
        ScriptFault::Refused { line: _, reason: _ } => Ok(None),
        ScriptFault::Limit(which) => Ok(Some(which)),
        ScriptFault::OutOfMemory => Err(OutOfMemory),
    }
}
