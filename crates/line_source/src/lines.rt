//! The reader of a source's lines.
ghost use Rattle.std.specs.Prelude.{◌≡◌, ◌≤◌, ℕ, List, [], ◌∷◌, ◌++◌, length, IfOk, IsOkUnless, Ok, Err, true, false};
ghost use Rattle.isis_edge.specs.Faults.{Rose};
ghost use Rattle.isis_edge.specs.Told.{Took};
ghost use Rattle.line_source.specs.Lines.{IsGiven, IsTooLong, IsUncut};

use crate::fault::LineFault;
use isis_base::{Octets, OutOfMemory};
use isis_edge::{Got, Source};
use line_cuts::cut;
use std::alloc::Global;
use std::marker::Model;

/// The most octets of a line (own).
pub const LINE_LIMIT: usize = 16_777_216;

/// How many octets one read is given room for.
const BUFFER: usize = 65_536;

/// What was read: a line that LF ends, or what stands behind the last LF, which may be empty.
#[derive(Clone, Copy, Debug, PartialEq, Eq)]
pub enum LineRead {
    Line,
    Rest,
}

/// A reader of lines: the octets that were read and not handed out yet, and the line that was handed out last.
#[derive(Drop)]
pub struct LineReader {
    buffer: Vec<u8>,
    begin: usize,
    end: usize,
    line: Octets,
}

impl Model for LineReader {
    ghost use Rattle.std.specs.Prelude.{◌≡◌, ◌≤◌, ◌-◌, ◌<◌, take, drop, length};
    ghost use Rattle.line_source.specs.Lines.{Reading};

    ghost Value = { Reading };

    ghost view = { λ r. record {
      pending = take (r.end - r.begin) (drop r.begin r.buffer.items);
      line = r.line;
    } };

    ghost invariant = { λ r. (r.begin ≤ r.end) × (r.end ≤ length r.buffer.items)
        × (0 < length r.buffer.items) };
}

impl LineReader {
    /// A reader that has read nothing.
    pub fn new(alloc: Global) -> Result<LineReader, OutOfMemory>
        ensures { IfOk result (λ reader. reader.pending ≡ []) }
    {
        let buffer = match vec![in alloc; 0; BUFFER] {
            Ok(buffer) => buffer,
            Err(_) => return Err(OutOfMemory),
        };
        Ok(LineReader {
            buffer,
            begin: 0,
            end: 0,
            line: Octets::new(alloc),
        })
    }

    /// The line, or the rest, that was read last.
    pub fn line(&self) -> &[u8]
        ensures { result.now ≡ self.now.line }
    {
        self.line.as_slice()
    }

    /// Reads to the next LF, or to the source's end. After a fault the line is worth nothing.
    pub fn next<I: Source>(&mut self, source: &mut I) -> Result<LineRead, LineFault>
        // The octets that were pending and those that the source gave meanwhile begin with the line.
        ensures given { IfOk result (λ read. (octets : List ℕ)
            × Took (I.gave source.old) (I.gave source.new) octets
            × IsGiven self.old octets (I.ended source.new) self.new read) }
        ensures within { IfOk result (λ _. length self.new.line ≤ 16777216) }
        ensures too_long { result ≡ Err LineFault.TooLong → (octets : List ℕ)
            × Took (I.gave source.old) (I.gave source.new) octets
            × IsTooLong (self.old.pending ++ octets) }
        ensures fault { result ≡ Err LineFault.Read
            → Rose (I.faults source.old) (I.faults source.new) }
        ensures later { I.faults source.old ≤ I.faults source.new }
        // Whatever the answer, the source gave octets more, or none.
        ensures taken { (octets : List ℕ) × Took (I.gave source.old) (I.gave source.new) octets }
    {
        self.line.truncate(0);
        'pieces: loop {
            let ended = self.take_piece()?;
            if self.line.len() > LINE_LIMIT {
                return Err(LineFault::TooLong);
            }
            if ended {
                return Ok(LineRead::Line);
            }
            match source.read(self.buffer.as_mut_slice()) {
                Got::Some(count) => {
                    self.begin = 0;
                    self.end = count;
                }
                Got::End => return Ok(LineRead::Rest),
                Got::Failed => return Err(LineFault::Read),
            }
        }
    }

    /// Adds what is pending to the line, up to the next LF, and answers whether there was one.
    fn take_piece(&mut self) -> Result<bool, OutOfMemory>
        ensures line { result ≡ Ok true → (front : List ℕ)
            × (self.new.line ≡ self.old.line ++ front)
            × (self.old.pending ≡ front ++ 10 ∷ self.new.pending) × IsUncut front }
        ensures none { result ≡ Ok false → (self.new.line ≡ self.old.line ++ self.old.pending)
            × (self.new.pending ≡ []) × IsUncut self.old.pending }
    {
        let here = &self.buffer.as_slice()[self.begin..self.end];
        let (front, behind) = cut(here, b'\n');
        self.line.extend(front)?;
        match behind {
            Some(behind) => {
                self.begin = self.end - behind.len();
                Ok(true)
            }
            None => {
                self.begin = self.end;
                Ok(false)
            }
        }
    }
}
