//! Lines of hex text, read into a captured database.
ghost use Rattle.std.specs.Prelude.{◌≡◌, ◌<◌, ◌≤◌, ◌+◌, ◌^◌, IfOk, OnOk};
ghost use Rattle.line_cuts.specs.Words.{lines_of};
ghost use Rattle.capture_text.specs.Reading.{nothing_read, AreRead, IsLineRead, IsSkipped, AreOctetsRead};

use crate::read::Read;
use hex::FromHexError;
use ipv6_reach::{Capture, Took};
use isis_base::{Level, OutOfMemory};
use line_cuts::cut;
use lsp_store::StoreFault;
use std::alloc::Global;

/// The LSPs of a level that an input has in hex, a line each. A line is skipped, and counted as that, where it
/// isn't hex, or has no LSP that the capture keeps, or there is no room for that; an empty one isn't counted
/// (own).
pub fn read_capture(alloc: Global, level: Level, input: &[u8]) -> Result<Read, OutOfMemory>
    ensures { IfOk result (λ read. AreRead (nothing_read level) (lines_of input.now) read) }
{
    let mut read = Read {
        capture: Capture::new(alloc, level),
        kept: 0,
        skipped: 0,
    };
    let mut left = Some(input);
    while let Some(rest) = left {
        let (line, behind) = cut(rest, b'\n');
        match read.take_line(alloc, line) {
            Ok(()) => {}
            Err(error) => return Err(error),
        }
        left = behind;
    }
    Ok(read)
}

impl Read {
    /// Reads a line more.
    fn take_line(&mut self, alloc: Global, line: &[u8]) -> Result<(), OutOfMemory>
        requires room { self.old.kept + self.old.skipped + 1 < 2 ^ 64 }
        ensures line { OnOk result (IsLineRead self.old line.now self.new) }
        ensures count { self.new.kept + self.new.skipped ≤ self.old.kept + self.old.skipped + 1 }
    {
        if line.is_empty() {
            return Ok(());
        }
        match hex::decode(alloc, line) {
            Ok(octets) => self.take_octets(octets.as_slice()),
            Err(FromHexError::OutOfMemory) => Err(OutOfMemory),
            Err(_) => {
                self.skipped += 1;
                Ok(())
            }
        }
    }

    /// Takes octets into the capture, and counts them.
    fn take_octets(&mut self, octets: &[u8]) -> Result<(), OutOfMemory>
        requires room { self.old.kept + self.old.skipped + 1 < 2 ^ 64 }
        ensures octets { OnOk result (AreOctetsRead self.old octets.now self.new) }
        ensures count { self.new.kept + self.new.skipped ≤ self.old.kept + self.old.skipped + 1 }
    {
        match self.capture.take(octets) {
            Ok(Took::Kept) => self.kept += 1,
            Ok(_) => self.skipped += 1,
            Err(StoreFault::Full) => self.skipped += 1,
            Err(StoreFault::OutOfMemory) => return Err(OutOfMemory),
        }
        Ok(())
    }
}
