//! The names of routers and links, by their numbers.
ghost use Rattle.std.specs.Prelude.{◌≡◌, ◌++◌, OnOk};
ghost use Rattle.lab_report.specs.Names as lines;
ghost use Rattle.lab_report.specs.Names.{texts};

use isis_base::{Octets, OutOfMemory};

/// A name, by its number.
#[tactic(auto, unfolding(crate::specs::Names::name_at))]
pub(crate) fn add_name(page: &mut Octets, names: &[&str], number: usize) -> Result<(), OutOfMemory>
    ensures { OnOk result (page.new ≡ page.old ++ lines.name_at (texts names.now) number) }
{
    match names.get(number) {
        Some(name) => page.extend(name.as_bytes()),
        None => Ok(()),
    }
}
