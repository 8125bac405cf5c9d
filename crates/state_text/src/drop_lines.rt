//! The lines of what a router dropped.
ghost use Rattle.std.specs.Prelude.{◌≡◌, ◌++◌, OnOk};
ghost use Rattle.std.specs.List.{flat_map};
ghost use Rattle.state_text.specs.StateLines as lines;

use isis_base::{Octets, OutOfMemory, add_number};
use router_core::Router;
use router_desk::DropName;

/// A line for each cause that was met, in the order in which they are tested.
pub(crate) fn add_drops(page: &mut Octets, router: &Router) -> Result<(), OutOfMemory>
    ensures { OnOk result (page.new
        ≡ page.old ++ flat_map (lines.drop_line router.now) lines.causes) }
{
    let causes = [
        DropName::Frame,
        DropName::Version,
        DropName::Pdu,
        DropName::TooLong,
        DropName::WrongKind,
        DropName::WrongLevel,
        DropName::Auth,
        DropName::Value,
        DropName::ZeroNumber,
        DropName::BadChecksum,
        DropName::OwnId,
        DropName::OtherSnpa,
        DropName::OldBoot,
        DropName::NoLevel,
        DropName::NoArea,
        DropName::NoThreeWay,
        DropName::OtherNeighbour,
        DropName::TooMany,
        DropName::NoAdjacency,
        DropName::NotDesignated,
        DropName::StoreFull,
    ];
    add_causes(page, router, &causes)
}

/// A line for each of these causes that was met.
fn add_causes(page: &mut Octets, router: &Router, causes: &[DropName]) -> Result<(), OutOfMemory>
    ensures { OnOk result (page.new
        ≡ page.old ++ flat_map (lines.drop_line router.now) causes.now) }
{
    for cause in causes {
        match add_drop(page, router, *cause) {
            Ok(()) => {}
            Err(error) => return Err(error),
        }
    }
    Ok(())
}

/// `drop WORD COUNT`, where the count isn't 0.
#[tactic(auto, unfolding(crate::specs::StateLines::drop_line))]
fn add_drop(page: &mut Octets, router: &Router, cause: DropName) -> Result<(), OutOfMemory>
    ensures { OnOk result (page.new ≡ page.old ++ lines.drop_line router.now cause) }
{
    let count = router.drops(cause);
    if count == 0 {
        return Ok(());
    }
    page.extend(b"drop ")?;
    page.extend(cause.word().as_bytes())?;
    add_number(page, b" ", count)?;
    page.extend(b"\n")
}
