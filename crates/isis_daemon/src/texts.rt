//! Texts made of an input: the report of a script, the fields of PDUs, the summary of a grid.
ghost use Rattle.std.specs.Prelude.{◌≡◌, ◌≤◌, ℕ, List, length, map, string_bytes, Err, IfSome, IsOk, ◌↔◌};
ghost use Rattle.capture_text.specs.TextEnds.{TextEnds};
ghost use Rattle.isis_edge.specs.Faults.{Rose};
ghost use Rattle.isis_edge.specs.Told.{Took};
ghost use Rattle.lab_grid.specs.GridRuns.{grid_end};
ghost use Rattle.lab_losses.specs.ScriptLosses.{IsAskedPart};
ghost use Rattle.isis_daemon.specs.Commands.{command_of, grid_size_of, AreNoText, IsAskedCommand};
ghost use Rattle.isis_daemon.specs.GridEnds.{GridEnds};
ghost use Rattle.isis_daemon.specs.Runs.{input_limit, IsCapturedText, EndsOn, Ends, IsTaken, IsTakenWithin, IsDoneUnlessMemory, IsWrittenUnlessMemory};

use crate::command::{CapturedText, Command, command_of, grid_size_of};
use crate::grid::grid;
use crate::shown::Shown;
use crate::status::{INPUT_LIMIT, Status};
use capture_text::{Absence, write_alternates, write_routes, write_routes6};
use isis_base::{Level, SystemId};
use isis_edge::{Sink, Source, TextFailed, WriteFailed, read_whole, write_all, write_text};
use lab_losses::write_losses;
use lab_text::{read_script, run_script};
use losses_text::{PartOf, merge_losses};
use std::alloc::Global;
use timeline_text::write_timeline;

/// Runs what makes a text of its input, or of nothing. The words are tested first, then the input is read.
#[tactic(auto, using(crate::proofs::TakenLemmas::taken_none))]
pub(crate) fn run_text<I: Source, O: Sink>(
    alloc: Global,
    words: &[String],
    input: &mut I,
    output: O,
) -> (O, Status)
    ensures usage { (result.1 ≡ Status.Usage) ↔ AreNoText (map string_bytes words.now) }
    ensures untouched { result.1 ≡ Status.Usage
        → (I.gave input.new ≡ I.gave input.old) × (I.ended input.new ≡ I.ended input.old) × (I.faults input.new ≡ I.faults input.old)
        × (result.0 ≡ output) }
    ensures ends { IfSome (command_of (map string_bytes words.now))
        (λ command. Ends command (I.gave input.old) (I.gave input.new) (I.ended input.new) (O.put output)
        (O.put result.0) result.1) }
    ensures taken { IsTakenWithin (I.gave input.old) (I.gave input.new) }
    ensures read_fault { result.1 ≡ Status.ReadFault
        → Rose (I.faults input.old) (I.faults input.new) }
    ensures write_fault { result.1 ≡ Status.WriteFault
        → Rose (O.faults output) (O.faults result.0) }
    ensures complete { IfSome (command_of (map string_bytes words.now))
        (λ command. (octets : List ℕ) → Took (I.gave input.old) (I.gave input.new) octets → IsTaken command octets
        → ¬ Rose (I.faults input.old) (I.faults input.new)
        → ¬ Rose (O.faults output) (O.faults result.0)
        → IsWrittenUnlessMemory command result.1) }
    ensures later { (I.faults input.old ≤ I.faults input.new)
        × (O.faults output ≤ O.faults result.0) }
    ensures grid { IfSome (grid_size_of (map string_bytes words.now))
        (λ size. GridEnds size (O.put output) (O.put result.0) result.1) }
    ensures grid_unread { IfSome (grid_size_of (map string_bytes words.now))
        (λ _. (I.gave input.new ≡ I.gave input.old) × (I.ended input.new ≡ I.ended input.old) × (I.faults input.new ≡ I.faults input.old)) }
    ensures grid_complete { IfSome (grid_size_of (map string_bytes words.now))
        (λ size. IsOk (grid_end size) → ¬ Rose (O.faults output) (O.faults result.0)
        → IsDoneUnlessMemory result.1) }
{
    let mut output = output;
    if let Some(size) = grid_size_of(words) {
        let status = grid(alloc, size, &mut output);
        return (output, status);
    }
    let Some(command) = command_of(words) else {
        return (output, Status::Usage);
    };
    let status = execute(alloc, command, input, &mut output);
    (output, status)
}

/// Reads the whole input, and writes a command's text of it.
pub(crate) fn execute<I: Source, O: Sink>(
    alloc: Global,
    command: Command,
    input: &mut I,
    output: &mut O,
) -> Status
    requires asked { IsAskedCommand command }
    ensures ends { Ends command (I.gave input.old) (I.gave input.new) (I.ended input.new) (O.put output.old)
        (O.put output.new) result }
    ensures taken { IsTakenWithin (I.gave input.old) (I.gave input.new) }
    ensures read_fault { result ≡ Status.ReadFault
        → Rose (I.faults input.old) (I.faults input.new) }
    ensures write_fault { result ≡ Status.WriteFault
        → Rose (O.faults output.old) (O.faults output.new) }
    ensures complete { (octets : List ℕ) → Took (I.gave input.old) (I.gave input.new) octets → IsTaken command octets
        → ¬ Rose (I.faults input.old) (I.faults input.new)
        → ¬ Rose (O.faults output.old) (O.faults output.new)
        → IsWrittenUnlessMemory command result }
    ensures later { (I.faults input.old ≤ I.faults input.new)
        × (O.faults output.old ≤ O.faults output.new) }
{
    let octets = match read_whole(alloc, input, INPUT_LIMIT) {
        Ok(octets) => octets,
        Err(fault) => return Status::from(fault),
    };
    put_text(alloc, command, octets.as_slice(), output)
}

/// Writes a command's text of what was read.
fn put_text<O: Sink>(alloc: Global, command: Command, octets: &[u8], output: &mut O) -> Status
    requires fits { length octets.now ≤ input_limit }
    requires asked { IsAskedCommand command }
    ensures ends { EndsOn command octets.now (O.put output.old) (O.put output.new) result }
    ensures write_fault { result ≡ Status.WriteFault
        → Rose (O.faults output.old) (O.faults output.new) }
    ensures later { O.faults output.old ≤ O.faults output.new }
{
    match command {
        Command::Lab => lab(alloc, octets, output),
        Command::Show { long } => put_shown(alloc, long, octets, output),
        Command::Merge => put_merged(alloc, octets, output),
        Command::Timeline { address } => put_timeline(alloc, address, octets, output),
        Command::Captured {
            what,
            level,
            system,
        } => put_captured(alloc, what, level, system, octets, output),
        Command::Losses { most, part } => put_losses(alloc, most, part, octets, output),
    }
}

/// Plays a script, and writes its report.
fn lab<O: Sink>(alloc: Global, text: &[u8], output: &mut O) -> Status
    ensures ends { EndsOn Command.Lab text.now (O.put output.old)
        (O.put output.new) result }
    ensures write_fault { result ≡ Status.WriteFault
        → Rose (O.faults output.old) (O.faults output.new) }
    ensures later { O.faults output.old ≤ O.faults output.new }
{
    let script = match read_script(alloc, text) {
        Ok(script) => script,
        Err(fault) => return Status::from(fault),
    };
    let end = run_script(alloc, &script, output);
    drop(script);
    match end {
        Ok(()) => Status::Done,
        Err(fault) => Status::from(fault),
    }
}

/// Plays a script, its last line with each way of losing so many deliveries, and writes what comes of it.
fn put_losses<O: Sink>(
    alloc: Global,
    most: u32,
    part: Option<PartOf>,
    text: &[u8],
    output: &mut O,
) -> Status
    requires part { IfSome part IsAskedPart }
    ensures ends { EndsOn (Command.Losses most part) text.now (O.put output.old)
        (O.put output.new) result }
    ensures write_fault { result ≡ Status.WriteFault
        → Rose (O.faults output.old) (O.faults output.new) }
    ensures later { O.faults output.old ≤ O.faults output.new }
{
    let script = match read_script(alloc, text) {
        Ok(script) => script,
        Err(fault) => return Status::from(fault),
    };
    match write_losses(alloc, script, most, part, output) {
        Ok(()) => Status::Done,
        Err(fault) => Status::from(fault),
    }
}

/// Plays a script, and writes what becomes of packets to an address at each moment.
fn put_timeline<O: Sink>(alloc: Global, address: u32, text: &[u8], output: &mut O) -> Status
    ensures ends { EndsOn (Command.Timeline address) text.now (O.put output.old)
        (O.put output.new) result }
    ensures write_fault { result ≡ Status.WriteFault
        → Rose (O.faults output.old) (O.faults output.new) }
    ensures later { O.faults output.old ≤ O.faults output.new }
{
    let script = match read_script(alloc, text) {
        Ok(script) => script,
        Err(fault) => return Status::from(fault),
    };
    let end = write_timeline(alloc, &script, address, output);
    drop(script);
    match end {
        Ok(()) => Status::Done,
        Err(fault) => Status::from(fault),
    }
}

/// Joins texts of losses of all parts, and writes that of the whole.
fn put_merged<O: Sink>(alloc: Global, texts: &[u8], output: &mut O) -> Status
    ensures ends { EndsOn Command.Merge texts.now (O.put output.old)
        (O.put output.new) result }
    ensures write_fault { result ≡ Status.WriteFault
        → Rose (O.faults output.old) (O.faults output.new) }
    ensures later { O.faults output.old ≤ O.faults output.new }
{
    let text = match merge_losses(alloc, texts) {
        Ok(text) => text,
        Err(fault) => return Status::from(fault),
    };
    match write_all(output, text.as_slice()) {
        Ok(()) => Status::Done,
        Err(WriteFailed) => Status::WriteFault,
    }
}

/// Writes the fields of the PDUs of an input.
fn put_shown<O: Sink>(alloc: Global, long: bool, input: &[u8], output: &mut O) -> Status
    requires { length input.now ≤ input_limit }
    ensures ends { EndsOn (Command.Show long) input.now (O.put output.old)
        (O.put output.new) result }
    ensures write_fault { result ≡ Status.WriteFault
        → Rose (O.faults output.old) (O.faults output.new) }
    ensures later { O.faults output.old ≤ O.faults output.new }
{
    let mut shown = Shown::new(alloc, long, input);
    match write_text(alloc, &mut shown, output) {
        Ok(()) => Status::Done,
        Err(fault) => Status::from(fault),
    }
}

/// Writes what captured LSPs say of a system.
fn put_captured<O: Sink>(
    alloc: Global,
    what: CapturedText,
    level: Level,
    system: SystemId,
    input: &[u8],
    output: &mut O,
) -> Status
    ensures ends { EndsOn (Command.Captured what level system) input.now
        (O.put output.old) (O.put output.new) result }
    ensures write_fault { result ≡ Status.WriteFault
        → Rose (O.faults output.old) (O.faults output.new) }
    ensures later { O.faults output.old ≤ O.faults output.new }
{
    match write_captured(alloc, what, level, system, input, output) {
        Ok(None) => Status::Done,
        Ok(Some(what)) => Status::Absent { what },
        Err(fault) => Status::from(fault),
    }
}

/// The text of captured LSPs, by its kind.
fn write_captured<O: Sink>(
    alloc: Global,
    what: CapturedText,
    level: Level,
    system: SystemId,
    input: &[u8],
    output: &mut O,
) -> Result<Option<Absence>, TextFailed>
    ensures ends { TextEnds (IsCapturedText what level system input.now)
        (O.put output.old) (O.put output.new) result }
    ensures cause { result ≡ Err TextFailed.Write
        → Rose (O.faults output.old) (O.faults output.new) }
    ensures later { O.faults output.old ≤ O.faults output.new }
{
    match what {
        CapturedText::Routes => write_routes(alloc, level, system, input, output),
        CapturedText::Routes6 => write_routes6(alloc, level, system, input, output),
        CapturedText::Alternates => write_alternates(alloc, level, system, input, output),
    }
}
