//! A line of a journal, made page by page.
ghost use Rattle.std.specs.Prelude.{◌≡◌, ◌≢◌, ◌+◌, ◌<◌, ◌≤◌, [], ◌++◌, length, true, false};
ghost use Rattle.circuit_threads.specs.JournalText.{entry_text};
ghost use Rattle.circuit_threads.specs.LineRests.{rest_of};

use crate::entry::JournalEntry;
use crate::page::Page;
use crate::words::{add_front, add_reply, taken_octets};
use router_core::Reply;

/// How much room a page has before more is added to it.
const STEP: usize = 512;

/// What of a line comes next, once the octets before it are said in hex: its front; its middle,
/// from the arrow on; its datagrams but for so many; or nothing.
#[derive(Clone, Copy)]
pub(crate) enum Stage {
    Front,
    Middle,
    Datagrams(usize),
    Over,
}

/// What of a line is still to come.
#[derive(Drop)]
pub(crate) struct LineRest<'a> {
    entry: &'a JournalEntry,
    octets: &'a [u8],
    stage: Stage,
}

impl<'a> LineRest<'a> {
    /// All of an entry's line.
    pub(crate) fn new(entry: &'a JournalEntry) -> LineRest<'a>
        ensures { rest_of result ≡ entry_text entry.now }
    {
        LineRest {
            entry,
            octets: &[],
            stage: Stage::Front,
        }
    }

    /// Puts what comes next on an empty page, as far as it has room. The page stays empty exactly
    /// where nothing is still to come.
    pub(crate) fn fill(&mut self, page: &mut Page)
        requires { page.old ≡ [] }
        ensures text { page.new ++ rest_of self.new ≡ rest_of self.old }
        ensures over { page.new ≡ [] → rest_of self.new ≡ [] }
    {
        while page.room() >= STEP {
            if !self.step(page) {
                return;
            }
        }
    }

    /// Adds what comes next, and answers whether there was anything.
    fn step(&mut self, page: &mut Page) -> bool
        requires { length page.old + 512 ≤ 2048 }
        ensures text { page.new ++ rest_of self.new ≡ page.old ++ rest_of self.old }
        ensures some { result ≡ true → length page.old < length page.new }
        ensures over { result ≡ false → (rest_of self.new ≡ []) × (page.new ≡ page.old) }
    {
        if !self.octets.is_empty() {
            self.add_octets(page);
            return true;
        }
        match self.stage {
            Stage::Front => {
                add_front(page, self.entry);
                self.octets = taken_octets(&self.entry.event);
                self.stage = Stage::Middle;
            }
            Stage::Middle => {
                add_reply(page, &self.entry.reply);
                self.stage = Stage::Datagrams(0);
            }
            Stage::Datagrams(count) => return self.add_datagram(page, count),
            Stage::Over => return false,
        }
        true
    }

    /// Adds octets in hex, as many as the page has room for at least.
    fn add_octets(&mut self, page: &mut Page)
        requires room { length page.old + 512 ≤ 2048 }
        requires some { self.old.octets.now ≢ [] }
        ensures text { page.new ++ rest_of self.new ≡ page.old ++ rest_of self.old }
        ensures some { length page.old < length page.new }
    {
        let count = self.octets.len().min(page.room() / 2);
        page.add_hex(&self.octets[..count]);
        self.octets = &self.octets[count..];
    }

    /// Goes on to the next datagram, or ends the line behind the last.
    fn add_datagram(&mut self, page: &mut Page, count: usize) -> bool
        requires room { length page.old + 512 ≤ 2048 }
        requires none { self.old.octets.now ≡ [] }
        requires stage { self.old.stage ≡ Stage.Datagrams count }
        ensures text { page.new ++ rest_of self.new ≡ page.old ++ rest_of self.old }
        ensures some { result ≡ true → length page.old < length page.new }
        ensures over { result ≡ false → (rest_of self.new ≡ []) × (page.new ≡ page.old) }
    {
        let Reply::Send(datagrams) = &self.entry.reply else {
            return false;
        };
        if count >= datagrams.len() {
            page.add(b"\n");
            self.stage = Stage::Over;
            return true;
        }
        let Some(datagram) = datagrams.get(count) else {
            unreachable!()
        };
        page.add(b" ");
        self.octets = datagram;
        self.stage = Stage::Datagrams(count + 1);
        true
    }
}
