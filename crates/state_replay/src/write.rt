//! The call that writes the state that a configuration and a journal come to.
ghost use Rattle.std.specs.Prelude.{◌≡◌, ◌⊎◌, ◌≤◌, ◌<◌, ◌+◌, ◌^◌, ℕ, List, ◌++◌, IfOk, IfErr, IsOkAnd, Err};
ghost use Rattle.isis_edge.specs.Faults.{Rose};
ghost use Rattle.isis_edge.specs.Told.{Took};
ghost use Rattle.state_replay.specs.declared.fault.StateFault.{StateFault};
ghost use Rattle.state_replay.specs.Ends.{StateEnds, IfGave, IsStateAfter, IsStateOf, IsRefused};
ghost use Rattle.state_replay.specs.Replays.{IsOutside, IsStopped};
ghost use Rattle.state_text.specs.States.{IsStateText};

use crate::entries::replay_lines;
use crate::fault::StateFault;
use crate::front::read_front;
use crate::opening::open;
use isis_base::{Octets, OutOfMemory};
use isis_edge::{Sink, Source, WriteFailed, write_all};
use line_source::LineReader;
use router_core::Router;
use state_text::state_of;
use std::alloc::Global;

/// The most entries of a journal that are replayed (own).
pub const ENTRIES_LIMIT: u64 = 1_000_000_000_000;

/// Reads a configuration and, behind it, the journal of its daemon in this boot, line by line; replays the journal to its end, or
/// at most so many entries; and writes the state of the router. What stands behind the last LF is passed over.
///
/// The first fault is answered: of the lines before the journal's head, of the configuration, and then entry by entry. Nothing is
/// written before all was replayed.
pub fn write_state<I: Source, O: Sink>(
    alloc: Global,
    boot: u32,
    most: u64,
    input: &mut I,
    output: &mut O,
) -> Result<(), StateFault>
    requires boot { (1 ≤ boot) × (boot ≤ 16777215) }
    requires most { most ≤ 1000000000000 }
    ensures ends { StateEnds boot most (I.gave input.old) (I.gave input.new) (I.ended input.new)
        (O.put output.old) (O.put output.new) result }
    ensures read_fault { result ≡ Err StateFault.Read
        → Rose (I.faults input.old) (I.faults input.new) }
    ensures write_fault { result ≡ Err StateFault.Write
        → Rose (O.faults output.old) (O.faults output.new) }
    ensures later { (I.faults input.old ≤ I.faults input.new)
        × (O.faults output.old ≤ O.faults output.new) }
{
    let text = match read_state(alloc, boot, most, input) {
        Ok(text) => text,
        Err(fault) => return Err(fault),
    };
    match write_all(output, text.as_slice()) {
        Ok(()) => Ok(()),
        Err(WriteFailed) => Err(StateFault::Write),
    }
}

/// The text of the state that an input comes to.
fn read_state<I: Source>(
    alloc: Global,
    boot: u32,
    most: u64,
    input: &mut I,
) -> Result<Octets, StateFault>
    requires boot { (1 ≤ boot) × (boot ≤ 16777215) }
    requires most { most ≤ 1000000000000 }
    ensures ok { IfOk result (λ text. IfGave (I.gave input.old) (I.gave input.new)
        (λ octets. IsStateOf boot most octets (I.ended input.new) text)) }
    ensures err { IfErr result (λ fault. IfGave (I.gave input.old) (I.gave input.new)
        (λ octets. IsRefused boot most octets (I.ended input.new) fault)) }
    ensures read_fault { result ≡ Err StateFault.Read
        → Rose (I.faults input.old) (I.faults input.new) }
    ensures later { I.faults input.old ≤ I.faults input.new }
{
    let mut lines = match LineReader::new(alloc) {
        Ok(lines) => lines,
        Err(OutOfMemory) => return Err(StateFault::OutOfMemory),
    };
    let front = match read_front(alloc, &mut lines, input) {
        Ok(front) => front,
        Err(fault) => return Err(fault),
    };
    let router = match open(alloc, front.text.as_slice(), boot) {
        Ok(router) => router,
        Err(fault) => return Err(fault),
    };
    let head = front.lines + 1;
    state_after(alloc, router, lines, input, head, most)
}

/// The text of the state of a router after its journal, whose head is this line of the input.
fn state_after<I: Source>(
    alloc: Global,
    router: Router,
    lines: LineReader,
    input: &mut I,
    head: u64,
    most: u64,
) -> Result<Octets, StateFault>
    requires { head + most + 1 < 2 ^ 64 }
    ensures ok { IfOk result (λ text. (octets : List ℕ)
        × Took (I.gave input.old) (I.gave input.new) octets
        × IsStateAfter router most (lines.pending ++ octets) (I.ended input.new) text) }
    ensures err { IfErr result (λ fault. (octets : List ℕ)
        × Took (I.gave input.old) (I.gave input.new) octets
        × (IsOutside fault
        ⊎ IsStopped router (lines.pending ++ octets) head most fault)) }
    ensures read_fault { result ≡ Err StateFault.Read
        → Rose (I.faults input.old) (I.faults input.new) }
    ensures later { I.faults input.old ≤ I.faults input.new }
{
    let (mut router, mut lines) = (router, lines);
    let end = replay_lines(alloc, &mut router, &mut lines, input, head, most);
    drop(lines);
    let made = text_at(alloc, end, &router);
    drop(router);
    made
}

/// The text of a router's state, where the replay of so many entries ended well.
fn text_at(
    alloc: Global,
    end: Result<u64, StateFault>,
    router: &Router,
) -> Result<Octets, StateFault>
    ensures ok { IfOk result (λ text. IsOkAnd end (λ done. IsStateText done router.now text)) }
    ensures err { IfErr result (λ why. (why ≡ StateFault.OutOfMemory) ⊎ (end ≡ Err why)) }
{
    match end {
        Ok(done) => match state_of(alloc, done, router) {
            Ok(text) => Ok(text),
            Err(OutOfMemory) => Err(StateFault::OutOfMemory),
        },
        Err(why) => Err(why),
    }
}
