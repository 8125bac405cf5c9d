//! The summary of a grid's run.
ghost use Rattle.std.specs.Prelude.{◌≡◌, ◌≤◌, ◌++◌, Err, OnOk, OnErr, IfOk, IsOkUnless};
ghost use Rattle.isis_edge.specs.Faults.{Rose};
ghost use Rattle.isis_edge.specs.Told.{Wrote, WrotePrefix};
ghost use Rattle.lab_grid.specs.SummaryText.{number_line, summary_text};

use crate::tally::Tally;
use isis_base::{Octets, OutOfMemory, add_number};
use isis_edge::{Sink, TextFailed, WriteFailed, write_all};
use std::alloc::Global;

/// What a grid's run came to.
#[derive(Clone, Copy, Debug, PartialEq, Eq)]
pub struct Summary {
    /// How many rows the grid has, and how many columns.
    pub size: u8,
    pub routers: u64,
    pub links: u64,
    /// How many groups the routers fall into at level 1.
    pub groups: u64,
    /// All routes of all routers.
    pub tally: Tally,
}

/// Writes the summary. Where it fails, a prefix of it was written.
pub fn write_summary<O: Sink>(
    alloc: Global,
    summary: &Summary,
    output: &mut O,
) -> Result<(), TextFailed>
    ensures ok { OnOk result (Wrote (O.put output.old) (O.put output.new)
        (summary_text summary.now)) }
    ensures begun { OnErr result (WrotePrefix (O.put output.old) (O.put output.new)
        (summary_text summary.now)) }
    ensures cause { result ≡ Err TextFailed.Write
        → Rose (O.faults output.old) (O.faults output.new) }
    ensures later { O.faults output.old ≤ O.faults output.new }
    ensures complete { ¬ Rose (O.faults output.old) (O.faults output.new)
        → IsOkUnless result TextFailed.OutOfMemory }
{
    let text = match text_of(alloc, summary) {
        Ok(text) => text,
        Err(OutOfMemory) => return Err(TextFailed::OutOfMemory),
    };
    match write_all(output, text.as_slice()) {
        Ok(()) => Ok(()),
        Err(WriteFailed) => Err(TextFailed::Write),
    }
}

/// The text of a summary.
#[tactic(auto, unfolding(crate::specs::SummaryText::summary_text))]
fn text_of(alloc: Global, summary: &Summary) -> Result<Octets, OutOfMemory>
    ensures { IfOk result (λ text. text ≡ summary_text summary.now) }
{
    let mut text = Octets::new(alloc);
    add_line(&mut text, b"grid ", u64::from(summary.size))?;
    add_line(&mut text, b"routers ", summary.routers)?;
    add_line(&mut text, b"links ", summary.links)?;
    add_line(&mut text, b"groups ", summary.groups)?;
    add_line(&mut text, b"routes ", summary.tally.routes)?;
    add_line(&mut text, b"cost ", summary.tally.cost)?;
    add_line(&mut text, b"greatest ", summary.tally.greatest)?;
    Ok(text)
}

/// Adds a word and a number as a line.
#[tactic(auto, unfolding(crate::specs::SummaryText::number_line))]
fn add_line(text: &mut Octets, word: &[u8], number: u64) -> Result<(), OutOfMemory>
    ensures { OnOk result (text.new ≡ text.old ++ number_line word.now number) }
{
    add_number(text, word, number)?;
    text.extend(b"\n")
}
