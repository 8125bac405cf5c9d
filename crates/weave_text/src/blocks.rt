//! The blocks of a text, line by line.
ghost use Rattle.std.specs.Prelude.{◌≡◌, ◌<◌, Ok, Err, map, length, IfOk, IfErr};
ghost use Rattle.std.specs.List.{AllByRecursion};
ghost use Rattle.lab_script.specs.Gives.{Gives};
ghost use Rattle.lab_script.specs.Scripts.{names_in};
ghost use Rattle.weave_text.specs.Blocks as block;
ghost use Rattle.weave_text.specs.Blocks.{IsFaultOf, block_of, blocks_in};
ghost use Rattle.journal_text.specs.Journals.{journal_of};

use crate::ahead::{add_line, is_skipped};
use crate::begun::Begun;
use crate::forms::begin;
use crate::input_lines::Lines;
use isis_base::{Octets, OutOfMemory};
use journal_text::{JournalFault, read_journal};
use lab_script::{Reason, Script, ScriptFault};
use std::alloc::Global;
use std::marker::Model;
use weave_replay::WovenJournal;

/// Reads the blocks of the lines that are left, each of a router of a script: `journal ROUTER`, the
/// lines of a journal, `end`. The first line that is refused is told with the first reason that
/// applies; a block that doesn't end is refused at the last line, unless one of its own is before.
pub(crate) fn read_blocks(
    alloc: Global,
    script: &Script<'_>,
    lines: &Lines<'_>,
) -> Result<Vec<WovenJournal>, ScriptFault>
    ensures ok { IfOk result (λ journals.
        blocks_in (names_in script.now) lines.now ≡ Ok (map block_of journals.items)) }
    ensures there { IfOk result (λ journals.
        AllByRecursion (λ j. j.router < length (names_in script.now)) journals.items) }
    ensures err { IfErr result (IsFaultOf (blocks_in (names_in script.now) lines.now)) }
{
    let mut so_far = Blocks::new(alloc);
    let mut left = lines.again();
    let mut number = left.number();
    while let Some(line) = left.next() {
        match so_far.hear(alloc, script, number, line) {
            Ok(()) => {}
            Err(fault) => return Err(fault),
        }
        number = left.number();
    }
    so_far.all(alloc, number.saturating_sub(1))
}

/// The blocks so far.
#[derive(Drop)]
struct Blocks {
    ended: Vec<WovenJournal>,
    begun: Option<Begun>,
}

impl Model for Blocks {
    ghost use Rattle.std.specs.Prelude.{map};
    ghost use Rattle.weave_text.specs.Blocks.{Blocks as SoFar, block_of};

    ghost Value = { SoFar };

    ghost view = { λ a. record { ended = map block_of a.ended.items; begun = a.begun } };
}

impl Blocks {
    /// No blocks.
    fn new(alloc: Global) -> Blocks
        ensures { result ≡ block.no_blocks }
    {
        Blocks {
            ended: Vec::new(alloc),
            begun: None,
        }
    }

    /// Takes a line.
    fn hear(
        &mut self,
        alloc: Global,
        script: &Script<'_>,
        number: usize,
        line: &[u8],
    ) -> Result<(), ScriptFault>
        ensures { Gives result self.new
            (block.with_line (names_in script.now) self.old number line.now) }
    {
        match self.begun.take() {
            None => self.hear_outside(alloc, script, number, line),
            Some(begun) => self.hear_within(alloc, begun, number, line),
        }
    }

    /// Takes a line outside of blocks.
    fn hear_outside(
        &mut self,
        alloc: Global,
        script: &Script<'_>,
        number: usize,
        line: &[u8],
    ) -> Result<(), ScriptFault>
        ensures { Gives result self.new
            (block.outside (names_in script.now) self.old number line.now) }
    {
        if is_skipped(line) {
            return Ok(());
        }
        let router = match begin(alloc, script, number, line) {
            Ok(router) => router,
            Err(fault) => return Err(fault),
        };
        self.begun = Some(Begun {
            router,
            line: number,
            text: Octets::new(alloc),
        });
        Ok(())
    }

    /// Takes a line within a block.
    fn hear_within(
        &mut self,
        alloc: Global,
        begun: Begun,
        number: usize,
        line: &[u8],
    ) -> Result<(), ScriptFault>
        ensures { Gives result self.new (block.within self.old.ended begun number line.now) }
    {
        if line == b"end".as_slice() {
            return self.end(alloc, begun, number);
        }
        let mut begun = begun;
        match add_line(&mut begun.text, line) {
            Ok(()) => {}
            Err(OutOfMemory) => return Err(ScriptFault::OutOfMemory),
        }
        self.begun = Some(begun);
        Ok(())
    }

    /// A block ends in the line of this number.
    fn end(&mut self, alloc: Global, begun: Begun, number: usize) -> Result<(), ScriptFault>
        ensures { Gives result self.new
            (block.with_ended self.old.ended begun number (journal_of begun.text)) }
    {
        let entries = match read_journal(alloc, begun.text.as_slice()) {
            Ok(entries) => entries,
            Err(JournalFault::Line { line }) => return refused(faulty_at(&begun, number, line)),
            Err(JournalFault::OutOfMemory) => return Err(ScriptFault::OutOfMemory),
        };
        let router = begun.router;
        match self.ended.push(WovenJournal { router, entries }) {
            Ok(()) => {}
            Err(_) => return Err(ScriptFault::OutOfMemory),
        }
        self.begun = None;
        Ok(())
    }

    /// The blocks of a text with this last line.
    fn all(self, alloc: Global, last: usize) -> Result<Vec<WovenJournal>, ScriptFault>
        ensures ok { IfOk result (λ journals.
            block.all_ended self.ended last self.begun ≡ Ok (map block_of journals.items)) }
        ensures err { IfErr result (IsFaultOf (block.all_ended self.ended last self.begun)) }
    {
        let Blocks { ended, begun } = self;
        let Some(begun) = begun else {
            return Ok(ended);
        };
        match read_journal(alloc, begun.text.as_slice()) {
            Ok(_) => refused(last),
            Err(JournalFault::Line { line }) => refused(faulty_at(&begun, last, line)),
            Err(JournalFault::OutOfMemory) => Err(ScriptFault::OutOfMemory),
        }
    }
}

fn refused<T>(line: usize) -> Result<T, ScriptFault>
    ensures { result ≡ Err (ScriptFault.Refused line Reason.Form) }
{
    Err(ScriptFault::Refused {
        line,
        reason: Reason::Form,
    })
}

/// Where a block up to this last line is refused, whose journal has a fault in this line of its own.
fn faulty_at(begun: &Begun, last: usize, line: usize) -> usize
    ensures { result ≡ block.faulty_at last begun.now line }
{
    match begun.line.checked_add(line) {
        Some(faulty) => last.min(faulty),
        None => last,
    }
}
