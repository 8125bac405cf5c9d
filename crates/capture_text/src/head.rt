//! The lines that a text begins with.
ghost use Rattle.std.specs.Prelude.{◌≡◌, ◌++◌, OnOk};
ghost use Rattle.capture_text.specs.HeadText.{head_text};

use crate::left::Counts;
use isis_base::{Octets, OutOfMemory, add_number};

/// A line of a text's name, and the line of how many lines were kept and skipped.
#[tactic(auto, unfolding(crate::specs::HeadText::head_text))]
pub(crate) fn add_head(page: &mut Octets, name: &[u8], counts: Counts) -> Result<(), OutOfMemory>
    ensures { OnOk result (page.new ≡ page.old ++ head_text name.now counts.kept counts.skipped) }
{
    page.extend(name)?;
    add_number(page, b"\nkept ", counts.kept as u64)?;
    add_number(page, b" skipped ", counts.skipped as u64)?;
    page.extend(b"\n")
}
