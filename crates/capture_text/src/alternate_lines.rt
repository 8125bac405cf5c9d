//! The lines of a target and one of its next hops.
ghost use Rattle.std.specs.Prelude.{◌≡◌, ◌++◌, OnOk};
ghost use Rattle.std.specs.List.{flat_map};
ghost use Rattle.capture_text.specs.AlternatesText as lines;

use crate::backup::Backup;
use alternates::Alternate;
use isis_base::{Octets, OutOfMemory, SystemId, add_number, add_system_id};

/// A line for each alternate, or one where there is none.
#[tactic(auto, unfolding(crate::specs::AlternatesText::backup_lines))]
pub(crate) fn add_backup(page: &mut Octets, backup: &Backup) -> Result<(), OutOfMemory>
    ensures { OnOk result (page.new ≡ page.old ++ lines.backup_lines backup.now) }
{
    let list = backup.alternates.as_slice();
    if list.is_empty() {
        return add_none(page, backup.target, backup.hop);
    }
    add_all(page, backup.target, backup.hop, list)
}

/// `alternate TARGET hop E none`.
#[tactic(auto, unfolding(crate::specs::AlternatesText::none_line))]
fn add_none(page: &mut Octets, target: SystemId, hop: SystemId) -> Result<(), OutOfMemory>
    ensures { OnOk result (page.new ≡ page.old ++ lines.none_line target hop) }
{
    add_start(page, target, hop)?;
    page.extend(b" none\n")
}

/// A line for each alternate.
fn add_all(
    page: &mut Octets,
    target: SystemId,
    hop: SystemId,
    list: &[Alternate],
) -> Result<(), OutOfMemory>
    ensures { OnOk result (page.new
        ≡ page.old ++ flat_map (lines.alternate_line target hop) list.now) }
{
    for told in list {
        match add_alternate(page, target, hop, told) {
            Ok(()) => {}
            Err(error) => return Err(error),
        }
    }
    Ok(())
}

/// `alternate TARGET hop E via N cost C link`.
#[tactic(auto, unfolding(crate::specs::AlternatesText::alternate_line))]
fn add_alternate(
    page: &mut Octets,
    target: SystemId,
    hop: SystemId,
    told: &Alternate,
) -> Result<(), OutOfMemory>
    ensures { OnOk result (page.new ≡ page.old ++ lines.alternate_line target hop told.now) }
{
    add_start(page, target, hop)?;
    add_system_id(page, b" via ", told.via)?;
    add_number(page, b" cost ", told.cost)?;
    page.extend(guard_word(told.node))
}

/// `alternate TARGET hop E`.
#[tactic(auto, unfolding(crate::specs::AlternatesText::start_text))]
fn add_start(page: &mut Octets, target: SystemId, hop: SystemId) -> Result<(), OutOfMemory>
    ensures { OnOk result (page.new ≡ page.old ++ lines.start_text target hop) }
{
    add_system_id(page, b"alternate ", target)?;
    add_system_id(page, b" hop ", hop)
}

/// ` link`, or ` node` of an alternate that protects against the hop's own failure, and LF.
fn guard_word(node: bool) -> &'static [u8]
    ensures { result.now ≡ lines.guard_text node }
{
    if node { b" node\n" } else { b" link\n" }
}
