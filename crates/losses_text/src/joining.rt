//! Texts of the parts of all schedules, joined line by line.
ghost use Rattle.std.specs.Prelude.{◌≡◌, ◌==◌, map, OnOk};
ghost use Rattle.std.specs.List.{list_any};
ghost use Rattle.losses.specs.Parts.{is_sooner, is_worse};
ghost use Rattle.losses_text.specs.Said.{lost_of};
ghost use Rattle.losses_text.specs.Joined as joined;
ghost use Rattle.losses_text.specs.TextLines as lines;

use crate::merge_fault::MergeReason;
use crate::part_words::PartOf;
use crate::said::{Losses, NamedLoss};
use crate::text_lines::{TextLine, read_line};
use isis_base::OutOfMemory;
use std::alloc::Global;
use std::marker::Model;

/// The kinds of lines of a text of a part, in their order.
#[derive(Clone, Copy, Debug, PartialEq, Eq)]
pub(crate) enum LineKind {
    Head,
    Most,
    Part,
    Schedules,
    Agree,
    Apart,
    Latest,
    Lost,
}

/// Why a line isn't taken.
#[derive(Clone, Copy, Debug, PartialEq, Eq)]
pub(crate) enum LineFault {
    Refused(MergeReason),
    OutOfMemory,
}

/// The latest second of a text, and what is lost then.
#[derive(Drop)]
struct Ending<'a> {
    latest: u64,
    lost: Vec<NamedLoss<'a>>,
}

impl<'a> Model for Ending<'a> {
    ghost use Rattle.std.specs.Prelude.{map};
    ghost use Rattle.losses_text.specs.Said.{lost_of};
    ghost use Rattle.losses_text.specs.Joined as joined;

    ghost Value = { joined.Ending };

    ghost view = { λ e. record { latest = e.latest; lost = map lost_of e.lost.items } };
}

/// What was read of texts of parts, one behind another.
#[derive(Drop)]
pub(crate) struct Joined<'a> {
    alloc: Global,
    comes: LineKind,
    most: Option<u32>,
    of: Option<u32>,
    agree: Option<u32>,
    numbers: Vec<u32>,
    schedules: u64,
    apart: u64,
    worst: Ending<'a>,
    here: Ending<'a>,
}

impl<'a> Model for Joined<'a> {
    ghost use Rattle.losses_text.specs.Joined as joined;

    ghost Value = { joined.Joined };

    ghost view = { λ j. record {
      comes = j.comes;
      most = j.most;
      of = j.of;
      agree = j.agree;
      numbers = j.numbers.items;
      schedules = j.schedules;
      apart = j.apart;
      worst = j.worst;
      here = j.here;
    } };
}

impl<'a> Joined<'a> {
    /// Nothing was read.
    pub(crate) fn new(alloc: Global) -> Joined<'a>
        ensures { result ≡ joined.nothing_read }
    {
        Joined {
            alloc,
            comes: LineKind::Head,
            most: None,
            of: None,
            agree: None,
            numbers: Vec::new(alloc),
            schedules: 0,
            apart: 0,
            worst: Ending::none(alloc),
            here: Ending::none(alloc),
        }
    }

    /// Reads one line more.
    pub(crate) fn take_line(&mut self, line: &'a [u8]) -> Result<(), LineFault>
        ensures { joined.Takes (joined.with_line self.old line.now) self.new result }
    {
        let Some(line) = read_line(line) else {
            return Err(LineFault::Refused(MergeReason::Form));
        };
        match self.comes {
            LineKind::Head => self.at_head(line),
            LineKind::Most => self.at_most(line),
            LineKind::Part => self.at_part(line),
            LineKind::Schedules => self.at_schedules(line),
            LineKind::Agree => self.at_agree(line),
            LineKind::Apart => self.at_apart(line),
            LineKind::Latest => self.at_latest(line),
            LineKind::Lost => self.at_lost(line),
        }
    }

    /// What the texts say of the whole; none where some part isn't there.
    pub(crate) fn whole(self) -> Option<Losses<'a>>
        ensures { result ≡ joined.whole self.entry }
    {
        let most = self.most?;
        let of = self.of?;
        let agree = self.agree?;
        if self.numbers.len() != of as usize || self.comes != LineKind::Lost {
            return None;
        }
        let ending = worse(self.worst, self.here);
        Some(Losses {
            most,
            part: None,
            schedules: self.schedules,
            agree: u64::from(agree),
            apart: self.apart,
            latest: ending.latest,
            lost: ending.lost,
        })
    }

    /// A text begins, and that before it is over.
    fn at_head(&mut self, line: TextLine<'a>) -> Result<(), LineFault>
        ensures { joined.Takes (joined.at_head self.old (lines.line_in line.entry)) self.new result }
    {
        let TextLine::Head = line else {
            return Err(LineFault::Refused(MergeReason::Form));
        };
        match end_text(&mut self.worst, &mut self.here) {
            Ok(()) => {}
            Err(_) => return Err(LineFault::OutOfMemory),
        }
        self.comes = LineKind::Most;
        Ok(())
    }

    fn at_most(&mut self, line: TextLine<'a>) -> Result<(), LineFault>
        ensures { joined.Takes (joined.at_most self.old (lines.line_in line.entry)) self.new result }
    {
        match line {
            TextLine::Most(most) if is_same(self.most, most) => {
                self.most = Some(most);
                self.comes = LineKind::Part;
                Ok(())
            }
            _ => Err(LineFault::Refused(MergeReason::Form)),
        }
    }

    fn at_part(&mut self, line: TextLine<'a>) -> Result<(), LineFault>
        ensures { joined.Takes (joined.at_part self.old (lines.line_in line.entry)) self.new result }
    {
        match line {
            TextLine::Part(part) => self.with_part(part),
            _ => Err(LineFault::Refused(MergeReason::Form)),
        }
    }

    /// A part that no text before has, of as many parts as theirs.
    fn with_part(&mut self, part: PartOf) -> Result<(), LineFault>
        ensures { joined.Takes (joined.with_part self.old part) self.new result }
    {
        if has(self.numbers.as_slice(), part.number) {
            return Err(LineFault::Refused(MergeReason::Again));
        }
        if !is_same(self.of, part.of) {
            return Err(LineFault::Refused(MergeReason::Form));
        }
        match self.numbers.push(part.number) {
            Ok(()) => {}
            Err(_) => return Err(LineFault::OutOfMemory),
        }
        self.of = Some(part.of);
        self.comes = LineKind::Schedules;
        Ok(())
    }

    fn at_schedules(&mut self, line: TextLine<'a>) -> Result<(), LineFault>
        ensures { joined.Takes (joined.at_schedules self.old (lines.line_in line.entry)) self.new result }
    {
        let TextLine::Schedules(count) = line else {
            return Err(LineFault::Refused(MergeReason::Form));
        };
        let Some(sum) = self.schedules.checked_add(u64::from(count)) else {
            return Err(LineFault::Refused(MergeReason::Form));
        };
        self.schedules = sum;
        self.comes = LineKind::Agree;
        Ok(())
    }

    fn at_agree(&mut self, line: TextLine<'a>) -> Result<(), LineFault>
        ensures { joined.Takes (joined.at_agree self.old (lines.line_in line.entry)) self.new result }
    {
        match line {
            TextLine::Agree(second) if is_same(self.agree, second) => {
                self.agree = Some(second);
                self.comes = LineKind::Apart;
                Ok(())
            }
            _ => Err(LineFault::Refused(MergeReason::Form)),
        }
    }

    fn at_apart(&mut self, line: TextLine<'a>) -> Result<(), LineFault>
        ensures { joined.Takes (joined.at_apart self.old (lines.line_in line.entry)) self.new result }
    {
        let TextLine::Apart(count) = line else {
            return Err(LineFault::Refused(MergeReason::Form));
        };
        let Some(sum) = self.apart.checked_add(u64::from(count)) else {
            return Err(LineFault::Refused(MergeReason::Form));
        };
        self.apart = sum;
        self.comes = LineKind::Latest;
        Ok(())
    }

    fn at_latest(&mut self, line: TextLine<'a>) -> Result<(), LineFault>
        ensures { joined.Takes (joined.at_latest self.old (lines.line_in line.entry)) self.new result }
    {
        let TextLine::Latest(second) = line else {
            return Err(LineFault::Refused(MergeReason::Form));
        };
        self.here.latest = u64::from(second);
        self.comes = LineKind::Lost;
        Ok(())
    }

    /// One more loss, or the next text.
    fn at_lost(&mut self, line: TextLine<'a>) -> Result<(), LineFault>
        ensures { joined.Takes (joined.at_lost self.old (lines.line_in line.entry)) self.new result }
    {
        let TextLine::Loses(lost) = line else {
            return self.at_head(line);
        };
        match self.here.lost.push(lost) {
            Ok(()) => Ok(()),
            Err(_) => Err(LineFault::OutOfMemory),
        }
    }
}

impl<'a> Ending<'a> {
    /// No second, and no losses.
    fn none(alloc: Global) -> Ending<'a>
        ensures { result ≡ joined.no_ending }
    {
        Ending {
            latest: 0,
            lost: Vec::new(alloc),
        }
    }
}

/// The worst is kept of a text that is over and those before, and the next one has no ending yet.
fn end_text<'a>(worst: &mut Ending<'a>, here: &mut Ending<'a>) -> Result<(), OutOfMemory>
    ensures worst { OnOk result (worst.new ≡ joined.worse worst.old here.old) }
    ensures here { OnOk result (here.new ≡ joined.no_ending) }
{
    if is_worse(worst, here) {
        worst.latest = here.latest;
        worst.lost.clear();
        worst.lost.extend_from_slice(here.lost.as_slice())?;
    }
    here.latest = 0;
    here.lost.clear();
    Ok(())
}

/// Whether a number is among these.
fn has(numbers: &[u32], number: u32) -> bool
    ensures { result ≡ list_any (λ n. n == number) numbers.now }
{
    numbers.iter().any(|other| *other == number)
}

/// Whether this is the first such number, or that of the text before.
fn is_same(before: Option<u32>, number: u32) -> bool
    ensures { result ≡ joined.is_same before number }
{
    match before {
        None => true,
        Some(before) => before == number,
    }
}

/// The worse of two endings; of two that are alike the first.
fn worse<'a>(one: Ending<'a>, other: Ending<'a>) -> Ending<'a>
    ensures { result ≡ joined.worse one.entry other.entry }
{
    if is_worse(&one, &other) { other } else { one }
}

/// Whether the second ending is worse: it is later, or as late where sooner places are lost.
fn is_worse(one: &Ending<'_>, other: &Ending<'_>) -> bool
    ensures { result ≡ is_worse (joined.worst_of one.now) (joined.worst_of other.now) }
{
    if one.latest == other.latest {
        is_sooner(other.lost.as_slice(), one.lost.as_slice())
    } else {
        one.latest < other.latest
    }
}

/// Whether these places are sooner than others: at the first one that differs, or where the others go on.
fn is_sooner(lost: &[NamedLoss<'_>], others: &[NamedLoss<'_>]) -> bool
    ensures { result ≡ is_sooner (joined.places_of (map lost_of lost.now)) (joined.places_of (map lost_of others.now)) }
{
    let [first, behind @ ..] = lost else {
        return !others.is_empty();
    };
    let [other, more @ ..] = others else {
        return false;
    };
    if first.place == other.place {
        is_sooner(behind, more)
    } else {
        first.place < other.place
    }
}
