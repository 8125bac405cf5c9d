//! The program's standard input and output.
ghost use Rattle.std.specs.Prelude.{◌≡◌, ◌<◌, ◌≤◌, [], false, length};
ghost use Rattle.isis_edge.specs.Faults.{Rose};
ghost use Rattle.isis_edge.specs.Sinks as Sinks;
ghost use Rattle.isis_edge.specs.Sinks.{Writes, HandsOn};
ghost use Rattle.isis_edge.specs.Sources as Sources;
ghost use Rattle.isis_edge.specs.Sources.{Reads, TakesFrom};

use crate::sink::{Put, Sink};
use crate::source::{Got, Source};
use note_list::NoteList;
use std::io::{Read, Write};

/// A source over a reader of the system, as its standard input. Each error that the reader answers is a fault.
#[derive(Drop)]
pub struct StdSource<R: Read> {
    reader: R,
    gave: NoteList<u8, ()>,
    ended: bool,
    faults: u64,
}

impl<R: Read> StdSource<R> {
    /// A source over this reader. Its count of faults is 0.
    pub fn new(reader: R) -> StdSource<R>
        ensures gave { ⟦<StdSource<R> as Source>⟧.gave result ≡ [] }
        ensures ended { ⟦<StdSource<R> as Source>⟧.ended result ≡ false }
        ensures faults { ⟦<StdSource<R> as Source>⟧.faults result ≡ 0 }
    {
        StdSource {
            reader,
            gave: NoteList::new(&()),
            ended: false,
            faults: 0,
        }
    }
}

impl<R: Read> Source for StdSource<R> {
    ghost gave = { λ s. s.gave.items };

    ghost ended = { λ s. s.ended };

    ghost faults = { λ s. s.faults };

    fn read(&mut self, into: &mut [u8]) -> Got
        requires { 0 < length into.old }
        ensures octets { Reads self.old.gave.items self.new.gave.items self.old.ended self.new.ended
            result into.new }
        ensures later { self.old.faults ≤ self.new.faults }
        ensures cause { Sources.OnFailed result (Rose self.old.faults self.new.faults) }
        ensures quiet { Sources.UnlessFailed result (self.new.faults ≡ self.old.faults) }
        ensures taken { TakesFrom (R.remaining self.old.reader) (R.remaining self.new.reader) result
            into.new }
    {
        match self.reader.read(into) {
            Ok(0) => {
                self.ended = true;
                Got::End
            }
            Ok(count) => {
                self.gave.push_all(&into[..count]);
                self.ended = false;
                Got::Some(count)
            }
            Err(_) => {
                self.faults = self.faults.saturating_add(1);
                Got::Failed
            }
        }
    }
}

/// A sink over a writer of the system, as its standard output. Each error that the writer answers is a fault, and
/// so is a write of nothing. What is written goes to the writer at once.
#[derive(Drop)]
pub struct StdSink<W: Write + Send> {
    writer: W,
    put: NoteList<u8, ()>,
    faults: u64,
}

impl<W: Write + Send> StdSink<W> {
    /// A sink over this writer. Its count of faults is 0.
    pub fn new(writer: W) -> StdSink<W>
        ensures put { ⟦<StdSink<W> as Sink>⟧.put result ≡ [] }
        ensures faults { ⟦<StdSink<W> as Sink>⟧.faults result ≡ 0 }
    {
        StdSink {
            writer,
            put: NoteList::new(&()),
            faults: 0,
        }
    }
}

impl<W: Write + Send> Sink for StdSink<W> {
    ghost put = { λ s. s.put.items };

    ghost faults = { λ s. s.faults };

    fn write(&mut self, piece: &[u8]) -> Put
        requires { 0 < length piece.now }
        ensures octets { Writes self.old.put.items self.new.put.items result piece.now }
        ensures later { self.old.faults ≤ self.new.faults }
        ensures cause { Sinks.OnFailed result (Rose self.old.faults self.new.faults) }
        ensures quiet { Sinks.UnlessFailed result (self.new.faults ≡ self.old.faults) }
        ensures handed_on { HandsOn (W.contents self.old.writer) (W.contents self.new.writer) result
            piece.now }
    {
        match self.writer.write(piece) {
            Ok(0) | Err(_) => {
                self.faults = self.faults.saturating_add(1);
                Put::Failed
            }
            Ok(count) => {
                self.put.push_all(&piece[..count]);
                Put::Some(count)
            }
        }
    }
}
