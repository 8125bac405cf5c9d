//! The text of a timeline, as it grows.
ghost use Rattle.std.specs.Prelude.{◌≡◌, ◌++◌, ◌==◌, ◌+◌, OnOk, IfOk, if◌then◌else◌};
ghost use Rattle.timeline_text.specs.TimelineText as lines;
ghost use Rattle.timeline_text.specs.Pages as page;

use crate::agreements::Agreement;
use crate::fates::{Counts, NONE};
use crate::tally::Tally;
use isis_base::{Octets, OutOfMemory, add_number};
use std::alloc::Global;
use std::marker::Model;

/// The text so far, the words of the last moment, and the sums over seconds so far.
#[derive(Drop)]
pub(crate) struct Page {
    alloc: Global,
    text: Octets,
    before: Octets,
    seconds: u64,
    sums: Counts,
}

impl Model for Page {
    ghost use Rattle.timeline_text.specs.Pages.{PageOf};

    ghost Value = { PageOf };

    ghost view = { λ p. record {
      text = p.text;
      before = p.before;
      seconds = p.seconds;
      sums = p.sums;
    } };
}

impl Page {
    /// The text before the first moment.
    pub(crate) fn new(alloc: Global) -> Result<Page, OutOfMemory>
        ensures { IfOk result (λ new. new ≡ page.new_page) }
    {
        let mut text = Octets::new(alloc);
        text.extend(b"isis-timeline 1\n")?;
        Ok(Page {
            alloc,
            text,
            before: Octets::new(alloc),
            seconds: 0,
            sums: NONE,
        })
    }

    /// One moment more: its line, where it has one, and its part of the sums.
    pub(crate) fn add(&mut self, line: usize, second: u32, tally: &Tally) -> Result<(), OutOfMemory>
        ensures { OnOk result (self.new ≡ page.with_moment self.old line second tally.now) }
    {
        let words = tally_words(self.alloc, tally)?;
        add_changed(
            &mut self.text,
            self.before.as_slice(),
            line,
            second,
            words.as_slice(),
        )?;
        self.before = words;
        if second != 0 {
            self.seconds = self.seconds.saturating_add(1);
            self.sums = sum_of(self.sums, tally.counts);
        }
        Ok(())
    }

    /// The whole text, with its sums.
    pub(crate) fn finish(self) -> Result<Octets, OutOfMemory>
        ensures { IfOk result (λ text. text
            ≡ self.text ++ lines.sum_words self.seconds self.sums) }
    {
        let mut text = self.text;
        add_sums(&mut text, self.seconds, self.sums)?;
        Ok(text)
    }
}

/// The sums of two counts.
fn sum_of(a: Counts, b: Counts) -> Counts
    ensures { result ≡ page.sum_of a b }
{
    Counts {
        arrive: a.arrive.saturating_add(b.arrive),
        loops: a.loops.saturating_add(b.loops),
        lost: a.lost.saturating_add(b.lost),
    }
}

/// All words of a tally.
#[tactic(auto, unfolding(crate::specs::TimelineText::tally_words))]
fn tally_words(alloc: Global, tally: &Tally) -> Result<Octets, OutOfMemory>
    ensures { IfOk result (λ words. words ≡ lines.tally_words tally.now) }
{
    let mut words = Octets::new(alloc);
    add_level(&mut words, b" L1", tally.one)?;
    add_level(&mut words, b" L2", tally.two)?;
    add_counts(&mut words, tally.counts)?;
    Ok(words)
}

/// ` L1 groups G flags F`; nothing of a level that nobody runs.
fn add_level(
    text: &mut Octets,
    word: &[u8],
    agreement: Option<Agreement>,
) -> Result<(), OutOfMemory>
    ensures { OnOk result (text.new ≡ text.old ++ lines.level_words word.now agreement) }
{
    match agreement {
        Some(agreement) => add_agreement(text, word, agreement),
        None => Ok(()),
    }
}

/// ` L1 groups G flags F`.
fn add_agreement(text: &mut Octets, word: &[u8], agreement: Agreement) -> Result<(), OutOfMemory>
    ensures { OnOk result (text.new ≡ text.old ++ lines.agreement_words word.now agreement) }
{
    text.extend(word)?;
    add_number(text, b" groups ", agreement.groups as u64)?;
    add_number(text, b" flags ", agreement.flags)
}

/// ` arrive A loop L lost D`.
fn add_counts(text: &mut Octets, counts: Counts) -> Result<(), OutOfMemory>
    ensures { OnOk result (text.new ≡ text.old ++ lines.count_words counts) }
{
    add_number(text, b" arrive ", counts.arrive)?;
    add_number(text, b" loop ", counts.loops)?;
    add_number(text, b" lost ", counts.lost)
}

/// The line of a moment; after a second in which nothing changed there is none.
fn add_changed(
    text: &mut Octets,
    before: &[u8],
    line: usize,
    second: u32,
    words: &[u8],
) -> Result<(), OutOfMemory>
    ensures { OnOk result (text.new
        ≡ text.old ++ lines.changed_line before.now line second words.now) }
{
    if 0 < second && words == before {
        return Ok(());
    }
    add_moment(text, line, second, words)
}

/// `at LINE SECOND` and the words of a tally.
#[tactic(auto, unfolding(crate::specs::TimelineText::moment_line))]
fn add_moment(text: &mut Octets, line: usize, second: u32, words: &[u8]) -> Result<(), OutOfMemory>
    ensures { OnOk result (text.new ≡ text.old ++ lines.moment_line line second words.now) }
{
    add_number(text, b"at ", line as u64)?;
    add_number(text, b" ", u64::from(second))?;
    text.extend(words)?;
    text.extend(b"\n")
}

/// `sum seconds S arrive A loop L lost D`.
#[tactic(auto, unfolding(crate::specs::TimelineText::sum_words))]
fn add_sums(text: &mut Octets, seconds: u64, sums: Counts) -> Result<(), OutOfMemory>
    ensures { OnOk result (text.new ≡ text.old ++ lines.sum_words seconds sums) }
{
    add_number(text, b"sum seconds ", seconds)?;
    add_counts(text, sums)?;
    text.extend(b"\n")
}
