//! Entries of a journal, the notes of turns, and what a submit answers.
ghost use Rattle.std.specs.Prelude.{◌≡◌};

use router_core::{NodeEvent, Reply};

/// An entry: its number, from 1; the label of the pass that made it; its event and the reply.
#[derive(Drop, Debug)]
pub struct JournalEntry {
    pub number: u64,
    pub pass: u64,
    pub event: NodeEvent,
    pub reply: Reply,
}

impl JournalEntry {
    /// Its receipt.
    pub(crate) fn receipt(self) -> Receipt
        ensures { (result.entry ≡ self.number) × (result.reply ≡ self.reply) }
    {
        let JournalEntry {
            number,
            pass: _,
            event: _,
            reply,
        } = self;
        Receipt {
            entry: number,
            reply,
        }
    }
}

/// What a turn leaves, for contracts alone: nothing, an entry, or an entry whose append failed.
#[derive(Drop, Debug)]
pub enum Note {
    Nothing,
    Made(JournalEntry),
    Marked(JournalEntry),
}

/// What a submitted event became: the number of its entry, and the reply.
#[derive(Drop, Debug)]
pub struct Receipt {
    pub entry: u64,
    pub reply: Reply,
}

/// Why a submit isn't plainly done.
#[derive(Drop, Debug)]
pub enum SubmitFault {
    /// There is no memory. Nothing was done.
    OutOfMemory,
    /// The event was done, and its entry wasn't appended. No later event is done.
    JournalFault(Receipt),
    /// An earlier append failed, that of this entry. Nothing was done.
    Stopped { entry: u64 },
}
