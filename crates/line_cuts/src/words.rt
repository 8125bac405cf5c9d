//! The words of a line, taken one after another.
ghost use Rattle.std.specs.Prelude.{◌≡◌, [], ◌∷◌, MatchOption};
ghost use Rattle.line_cuts.specs.Forms.{marked};
ghost use Rattle.line_cuts.specs.Words.{words_of};

use crate::cuts::cut;
use std::marker::Model;

/// The words that are left of a line, which one space parts.
#[derive(Drop)]
pub struct Words<'a> {
    left: Option<&'a [u8]>,
}

impl<'a> Model for Words<'a> {
    ghost use Rattle.std.specs.Prelude.{ℕ, List};
    ghost use Rattle.line_cuts.specs.Cuts.{parts_behind};

    ghost Value = { List (List ℕ) };

    ghost view = { λ a. parts_behind 32 a.left };
}

impl<'a> Words<'a> {
    /// The words of a line.
    pub fn of(line: &'a [u8]) -> Words<'a>
        ensures { result ≡ words_of line.now }
    {
        Words { left: Some(line) }
    }

    /// The same words, to be taken again.
    pub fn again(&self) -> Words<'a>
        ensures { result ≡ self.now }
    {
        Words { left: self.left }
    }

    /// Takes the next word.
    pub fn next(&mut self) -> Option<&'a [u8]>
        ensures { MatchOption result ((self.old ≡ []) × (self.new ≡ []))
            (λ word. self.old ≡ word.now ∷ self.new) }
    {
        match self.left {
            Some(text) => {
                let (word, behind) = cut(text, b' ');
                self.left = behind;
                Some(word)
            }
            None => None,
        }
    }

    /// Takes the next word if it is this one.
    pub fn mark(&mut self, word: &[u8]) -> bool
        ensures { marked word.now self.old ≡ (result, self.new) }
    {
        let Some(text) = self.left else {
            return false;
        };
        let (next, behind) = cut(text, b' ');
        if next != word {
            return false;
        }
        self.left = behind;
        true
    }

    /// `Some` where no word is left.
    pub fn end(&self) -> Option<()>
        ensures { MatchOption result (self.now ≡ [] → ⊥) (λ u. self.now ≡ []) }
    {
        match self.left {
            Some(_) => None,
            None => Some(()),
        }
    }
}
