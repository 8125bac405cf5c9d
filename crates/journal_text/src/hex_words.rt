//! The octets that end a line.
ghost use Rattle.std.specs.Prelude.{◌≡◌, [], ◌∷◌, IfOk, MatchOption};
ghost use Rattle.journal_text.specs.HexWords.{are_octets};
ghost use Rattle.line_cuts.specs.Forms.{each};
ghost use Rattle.line_cuts.specs.HexTexts.{octets_of};

use isis_base::OutOfMemory;
use line_cuts::{Hex, Words, reads_octets};
use router_core::Datagrams;
use std::alloc::Global;
use std::marker::Model;

/// Octets in hex, word after word, to the end of a line. Contracts see the octets of each.
#[derive(Drop)]
pub(crate) struct HexWords<'a> {
    left: Words<'a>,
}

impl<'a> Model for HexWords<'a> {
    ghost use Rattle.std.specs.Prelude.{◌≡◌, ℕ, true, List, map};
    ghost use Rattle.line_cuts.specs.HexTexts.{octets_in};
    ghost use Rattle.journal_text.specs.HexWords.{are_octets};

    ghost Value = { List (List ℕ) };

    ghost view = { λ words. map octets_in words.left };

    ghost invariant = { λ words. are_octets words.left ≡ true };
}

impl<'a> HexWords<'a> {
    /// The octets that each of these words writes, if each does.
    pub(crate) fn read(words: Words<'a>) -> Option<HexWords<'a>>
        ensures { result ≡ each octets_of words.entry }
    {
        if !write_octets(words.again()) {
            return None;
        }
        Some(HexWords { left: words })
    }

    /// The same octets, to be taken again.
    fn again(&self) -> HexWords<'a>
        ensures { result ≡ self.now }
    {
        HexWords {
            left: self.left.again(),
        }
    }

    /// Takes the octets of the next word.
    fn next(&mut self) -> Option<Hex<'a>>
        ensures { MatchOption result (self.old ≡ []) (λ octets. self.old ≡ octets ∷ self.new) }
    {
        match self.left.next() {
            Some(word) => Some(Hex::new(word)),
            None => None,
        }
    }

    /// The octets of each, copied.
    pub(crate) fn datagrams(&self, alloc: Global) -> Result<Datagrams, OutOfMemory>
        ensures { IfOk result (λ datagrams. datagrams ≡ self.now) }
    {
        let mut datagrams = Datagrams::new(alloc);
        let mut left = self.again();
        while let Some(hex) = left.next() {
            let octets = match hex.octets(alloc) {
                Ok(octets) => octets,
                Err(error) => return Err(error),
            };
            match datagrams.push(octets) {
                Ok(()) => {}
                Err(error) => return Err(error),
            }
        }
        Ok(datagrams)
    }
}

/// Whether each of these words writes octets in hex.
fn write_octets(mut words: Words<'_>) -> bool
    ensures { result ≡ are_octets words.entry }
{
    while let Some(word) = words.next() {
        if !reads_octets(word) {
            return false;
        }
    }
    true
}
