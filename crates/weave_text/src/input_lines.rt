//! The lines of a text, one after another.
ghost use Rattle.std.specs.Prelude.{◌≡◌, [], ◌∷◌, MatchOption};
ghost use Rattle.std.specs.List.{AllByRecursion};
ghost use Rattle.line_cuts.specs.Cuts.{parts_behind};
ghost use Rattle.journal_text.specs.Journals.{is_end};
ghost use Rattle.weave_text.specs.Lines.{all_of, behind_next, IsUnbroken};

use line_cuts::cut;
use std::marker::Model;

/// The lines that are left of a text, which LF ends; the last LF may be wanting.
#[derive(Drop)]
pub(crate) struct Lines<'a> {
    left: Option<&'a [u8]>,
    number: usize,
}

impl<'a> Model for Lines<'a> {
    ghost use Rattle.std.specs.Prelude.{◌+◌, ◌≤◌, ◌^◌};
    ghost use Rattle.line_cuts.specs.Cuts.{parts_behind};
    ghost use Rattle.weave_text.specs.Lines.{Left, whole_lines, size_left};

    ghost Value = { Left };

    ghost view = { λ a. record {
      number = a.number;
      lines = whole_lines (parts_behind 10 a.left);
    } };

    ghost invariant = { λ a. a.number + size_left a.left ≤ 2 ^ 63 + 1 };
}

impl<'a> Lines<'a> {
    /// The lines of a text.
    pub fn of(text: &'a [u8]) -> Lines<'a>
        ensures { result ≡ all_of text.now }
    {
        Lines {
            left: Some(text),
            number: 1,
        }
    }

    /// The same lines, to be taken again.
    pub fn again(&self) -> Lines<'a>
        ensures { result ≡ self.now }
    {
        Lines {
            left: self.left,
            number: self.number,
        }
    }

    /// No line has LF. Nothing is done.
    pub fn facts(&self)
        ensures { AllByRecursion IsUnbroken self.now.lines }
    {
        let _ = &self.left;
    }

    /// The number of the next line, counted from 1.
    pub fn number(&self) -> usize
        ensures { result ≡ self.now.number }
    {
        self.number
    }

    /// Takes the next line.
    pub fn next(&mut self) -> Option<&'a [u8]>
        ensures { MatchOption result ((self.old.lines ≡ []) × (self.new ≡ self.old))
            (λ line. (self.old.lines ≡ line.now ∷ self.new.lines)
            × (self.new ≡ behind_next self.old self.new.lines)) }
    {
        let Some(text) = self.left else {
            return None;
        };
        let (line, behind) = cut(text, b'\n');
        if ends(line, behind) {
            return None;
        }
        self.left = behind;
        self.number += 1;
        Some(line)
    }
}

/// Whether this is the empty line behind the last LF.
fn ends(line: &[u8], behind: Option<&[u8]>) -> bool
    ensures { result ≡ is_end line.now (parts_behind 10 behind.entry) }
{
    match behind {
        Some(_) => false,
        None => line.is_empty(),
    }
}
