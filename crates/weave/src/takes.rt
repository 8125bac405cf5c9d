//! Letters for what is taken.
ghost use Rattle.std.specs.Prelude.{◌<◌, length, map, IfSome, OnOk};
ghost use Rattle.std.specs.List.{AllByRecursion};
ghost use Rattle.model_router.specs.Places.{nth};
ghost use Rattle.weave.specs.Coded.{HasPort, HavePorts, IsLettered, AreLettered, AreKept, HavePortsAll, AreLetteredAll};
ghost use Rattle.weave_replay.specs.Entries.{entry_of, entries_of};

use isis_base::OutOfMemory;
use weave_core::LetterBook;
use weave_replay::{WovenEntry, WovenEvent, WovenJournal};

/// Gives all that journals take a letter.
pub(crate) fn add_all<'a>(
    book: &mut LetterBook<'a>,
    ports: &[Vec<usize>],
    journals: &'a [WovenJournal],
) -> Result<(), OutOfMemory>
    requires there { AllByRecursion (λ j. j.router < length ports.now) journals.now }
    requires on { HavePortsAll (map (λ row. row.items) ports.now) journals.now }
    ensures { OnOk result
        (AreLetteredAll book.new (map (λ row. row.items) ports.now) journals.now) }
{
    for place in 0..journals.len() {
        let journal = &journals[place];
        match add_takes(
            book,
            ports[journal.router].as_slice(),
            journal.entries.as_slice(),
        ) {
            Ok(()) => {}
            Err(error) => return Err(error),
        }
    }
    Ok(())
}

/// Gives all that entries of a router take a letter.
fn add_takes<'a>(
    book: &mut LetterBook<'a>,
    ports: &[usize],
    entries: &'a [WovenEntry],
) -> Result<(), OutOfMemory>
    requires { HavePorts ports.now (map entry_of entries.now) }
    ensures kept { AreKept book.old book.new }
    ensures lettered { OnOk result (AreLettered book.new ports.now (map entry_of entries.now)) }
{
    for place in 0..entries.len() {
        match add_take(book, ports, &entries[place]) {
            Ok(()) => {}
            Err(error) => return Err(error),
        }
    }
    Ok(())
}

/// Gives what an entry takes a letter.
fn add_take<'a>(
    book: &mut LetterBook<'a>,
    ports: &[usize],
    entry: &'a WovenEntry,
) -> Result<(), OutOfMemory>
    requires { HasPort ports.now (entry_of entry.now).deed }
    ensures kept { AreKept book.old book.new }
    ensures lettered { OnOk result (IsLettered book.new ports.now (entry_of entry.now).deed) }
{
    match &entry.event {
        WovenEvent::Take { circuit, octets } => {
            book.add(ports[usize::from(*circuit) - 1], octets.as_slice())
        }
        WovenEvent::Second | WovenEvent::Pull { circuit: _ } | WovenEvent::Change(_) => Ok(()),
    }
}
