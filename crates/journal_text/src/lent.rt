//! An entry whose octets still lie in the text.
ghost use Rattle.std.specs.Prelude.{◌≡◌, IfOk};
ghost use Rattle.journal_text.specs.Lent.{entry_in, event_in, reply_in};

use crate::entry::{WovenEntry, WovenEvent, WovenReply};
use crate::hex_words::HexWords;
use isis_base::OutOfMemory;
use line_cuts::Hex;
use router_desk::{Change, DropName};
use std::alloc::Global;

/// An event whose octets are lent.
#[derive(Drop)]
pub(crate) enum LentEvent<'a> {
    Second,
    Take { circuit: u8, octets: Hex<'a> },
    Pull { circuit: u8 },
    Change(Change),
}

impl<'a> LentEvent<'a> {
    /// The event, with octets of its own.
    fn copy(&self, alloc: Global) -> Result<WovenEvent, OutOfMemory>
        ensures { IfOk result (λ event. event ≡ event_in self.now) }
    {
        match self {
            LentEvent::Second => Ok(WovenEvent::Second),
            LentEvent::Take { circuit, octets } => {
                let octets = octets.octets(alloc)?;
                Ok(WovenEvent::Take {
                    circuit: *circuit,
                    octets,
                })
            }
            LentEvent::Pull { circuit } => Ok(WovenEvent::Pull { circuit: *circuit }),
            LentEvent::Change(change) => Ok(WovenEvent::Change(*change)),
        }
    }
}

/// A reply whose octets are lent.
#[derive(Drop)]
pub(crate) enum LentReply<'a> {
    Done,
    Dropped(DropName),
    Send(HexWords<'a>),
}

impl<'a> LentReply<'a> {
    /// The reply, with octets of its own.
    fn copy(&self, alloc: Global) -> Result<WovenReply, OutOfMemory>
        ensures { IfOk result (λ reply. reply ≡ reply_in self.now) }
    {
        match self {
            LentReply::Done => Ok(WovenReply::Done),
            LentReply::Dropped(name) => Ok(WovenReply::Dropped(*name)),
            LentReply::Send(words) => {
                let datagrams = words.datagrams(alloc)?;
                Ok(WovenReply::Send(datagrams))
            }
        }
    }
}

/// An entry whose octets are lent.
#[derive(Drop)]
pub(crate) struct LentEntry<'a> {
    pub(crate) event: LentEvent<'a>,
    pub(crate) reply: LentReply<'a>,
}

impl<'a> LentEntry<'a> {
    /// The entry, with octets of its own.
    pub(crate) fn copy(&self, alloc: Global) -> Result<WovenEntry, OutOfMemory>
        ensures { IfOk result (λ entry. entry ≡ entry_in self.now) }
    {
        let event = self.event.copy(alloc)?;
        let reply = self.reply.copy(alloc)?;
        Ok(WovenEntry { event, reply })
    }
}
