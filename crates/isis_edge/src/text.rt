//! Texts that are made as they are written, piece by piece, and the one writer of them all.
ghost use Rattle.std.specs.Prelude.{◌≡◌, ℕ, ◌<◌, ◌≤◌, List, [], ◌++◌, true, false, Ok, Err, OnOk, OnErr, IsOkUnless, length};
ghost use Rattle.isis_edge.specs.Faults.{Rose};
ghost use Rattle.isis_edge.specs.Told.{Wrote, WrotePrefix};

use crate::sink::Sink;
use crate::writing::{WriteFailed, write_all};
use isis_base::{Octets, OutOfMemory};
use std::alloc::Global;
use std::error::Error;
use std::fmt;

/// From how many octets on those that wait are written.
const PAGE: usize = 8192;

/// A text that is made as it is written.
pub trait Text {
    // What is still to come.
    ghost rest: { Self → List ℕ };
    // At most how many calls make it.
    ghost calls: { Self → ℕ };

    /// Adds the next piece at the end of the page. Answers whether more may come; where it doesn't, all of the text is made.
    /// At `OutOfMemory` the text can't be made, and the page is worth nothing.
    fn add_next(&mut self, page: &mut Octets) -> Result<bool, OutOfMemory>
        ensures adds { OnOk result (page.new ++ rest self.new ≡ page.old ++ rest self.old) }
        ensures ends { result ≡ Ok false → rest self.new ≡ [] }
        ensures fewer { result ≡ Ok true → calls self.new < calls self.old };
}

/// Why a text wasn't written to its end. A prefix of it was.
#[derive(Clone, Copy, Debug, PartialEq, Eq)]
pub enum TextFailed {
    /// A write failed.
    Write,
    /// There is no memory to make the text in.
    OutOfMemory,
}

impl fmt::Display for TextFailed {
    ghost use Rattle.std.specs.Prelude.{Some};
    ghost use Rattle.isis_edge.specs.Texts.{text_failed_text};

    ghost output = { λ fault. Some (text_failed_text fault) };

    fn fmt<W: fmt::Write>(&self, f: &mut fmt::Formatter<W>) -> fmt::Result {
        match self {
            TextFailed::Write => write!(f, "write fault"),
            TextFailed::OutOfMemory => write!(f, "out of memory"),
        }
    }
}

impl Error for TextFailed {}

/// Writes all of a text that is still to come, in pieces of some kilobytes. Where it fails, a prefix of it was written.
pub fn write_text<T: Text, O: Sink>(
    alloc: Global,
    text: &mut T,
    output: &mut O,
) -> Result<(), TextFailed>
    ensures ok { OnOk result (Wrote (O.put output.old) (O.put output.new) (T.rest text.old)) }
    ensures begun { OnErr result
        (WrotePrefix (O.put output.old) (O.put output.new) (T.rest text.old)) }
    ensures cause { result ≡ Err TextFailed.Write
        → Rose (O.faults output.old) (O.faults output.new) }
    ensures later { O.faults output.old ≤ O.faults output.new }
    ensures complete { ¬ Rose (O.faults output.old) (O.faults output.new)
        → IsOkUnless result TextFailed.OutOfMemory }
{
    let mut page = Octets::new(alloc);
    'pieces: loop {
        match text.add_next(&mut page) {
            Ok(true) => {}
            Ok(false) => match flush(&mut page, output) {
                Ok(()) => return Ok(()),
                Err(fault) => return Err(fault),
            },
            Err(OutOfMemory) => return Err(TextFailed::OutOfMemory),
        }
        match settle(&mut page, output) {
            Ok(()) => {}
            Err(fault) => return Err(fault),
        }
    }
}

/// Writes what waits, where it fills a page.
fn settle<O: Sink>(page: &mut Octets, output: &mut O) -> Result<(), TextFailed>
    ensures ok { OnOk result ((front : List ℕ) × (front ++ page.new ≡ page.old)
        × Wrote (O.put output.old) (O.put output.new) front) }
    ensures begun { OnErr result (WrotePrefix (O.put output.old) (O.put output.new) page.old) }
    ensures cause { result ≡ Err TextFailed.Write
        → Rose (O.faults output.old) (O.faults output.new) }
    ensures write { OnErr result (result ≡ Err TextFailed.Write) }
    ensures later { O.faults output.old ≤ O.faults output.new }
{
    if page.len() < PAGE {
        return Ok(());
    }
    match flush(page, output) {
        Ok(()) => {
            page.truncate(0);
            Ok(())
        }
        Err(fault) => Err(fault),
    }
}

/// Writes what waits.
fn flush<O: Sink>(page: &mut Octets, output: &mut O) -> Result<(), TextFailed>
    ensures same { page.new ≡ page.old }
    ensures ok { OnOk result (Wrote (O.put output.old) (O.put output.new) page.old) }
    ensures begun { OnErr result (WrotePrefix (O.put output.old) (O.put output.new) page.old) }
    ensures cause { OnErr result (Rose (O.faults output.old) (O.faults output.new)) }
    ensures write { OnErr result (result ≡ Err TextFailed.Write) }
    ensures later { O.faults output.old ≤ O.faults output.new }
{
    match write_all(output, page.as_slice()) {
        Ok(()) => Ok(()),
        Err(WriteFailed) => Err(TextFailed::Write),
    }
}
