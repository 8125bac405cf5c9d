//! A journal of text behind a sink.
ghost use Rattle.std.specs.Prelude.{◌≡◌, ◌≤◌, IfOk, IfErr};
ghost use Rattle.isis_edge.specs.Faults.{Rose};
ghost use Rattle.isis_edge.specs.Told.{Wrote, WrotePrefix};
ghost use Rattle.circuit_threads.specs.JournalText.{head_text};
ghost use Rattle.circuit_threads.specs.Told.{WroteTold};

use crate::entry::JournalEntry;
use crate::journal::{AppendFailed, Journal};
use crate::line::LineRest;
use crate::page::Page;
use isis_base::OutOfMemory;
use isis_edge::{Put, Sink, WriteFailed, write_all};

/// The line that a journal begins with.
const HEAD: &[u8; 15] = b"isis-journal 1\n";

/// A journal of text. It owns its sink, and has its count of faults. It takes no memory.
#[derive(Drop)]
pub struct TextJournal<O: Sink> {
    pub(crate) sink: O,
}

impl<O: Sink> TextJournal<O> {
    /// Begins a journal by its head line. Where that isn't written the sink comes back, which got a
    /// prefix of it.
    pub fn open(sink: O) -> Result<TextJournal<O>, (O, WriteFailed)>
        ensures ok { IfOk result (λ journal. Wrote (O.put sink) (O.put journal.sink) head_text) }
        ensures later { IfOk result (λ journal. O.faults sink ≤ O.faults journal.sink) }
        ensures never { IfErr result (λ back. O.faults sink ≤ O.faults back.0) }
        ensures begun { IfErr result (λ back. WrotePrefix (O.put sink) (O.put back.0) head_text) }
        ensures cause { IfErr result (λ back. Rose (O.faults sink) (O.faults back.0)) }
    {
        let mut sink = sink;
        match write_all(&mut sink, HEAD) {
            Ok(()) => Ok(TextJournal { sink }),
            Err(failed) => Err((sink, failed)),
        }
    }

    /// The sink.
    pub fn into_sink(self) -> O
        ensures { result ≡ self.sink }
    {
        self.sink
    }
}

impl<O: Sink> Journal for TextJournal<O> {
    ghost tells = { λ first now told. WroteTold (O.put first.sink) (O.put now.sink) told };

    ghost faults = { λ journal. O.faults journal.sink };

    fn room(&mut self) -> Result<(), OutOfMemory>
        ensures ok { result ≡ Ok tt }
        ensures same { self.new ≡ self.old }
    {
        Ok(())
    }

    fn append(&mut self, entry: &JournalEntry) -> Result<(), AppendFailed> {
        let mut line = LineRest::new(entry);
        let mut page = Page::new();
        'pages: loop {
            line.fill(&mut page);
            let mut rest = page.as_slice();
            if rest.is_empty() {
                return Ok(());
            }
            while !rest.is_empty() {
                match self.sink.write(rest) {
                    Put::Some(count) => rest = &rest[count..],
                    Put::Failed => return Err(AppendFailed),
                }
            }
            page.clear();
        }
    }
}
