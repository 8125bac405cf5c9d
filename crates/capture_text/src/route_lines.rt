//! The line of an IPv4 route, but for the way to an attached system.
ghost use Rattle.std.specs.Prelude.{◌≡◌, ◌++◌, OnOk};
ghost use Rattle.capture_text.specs.RoutesText as lines;

use isis_base::{Octets, OutOfMemory};
use route_table::{Rank, Route};
use route_text::add_route;

/// The line of a route; none of the way to an attached system where the system is attached itself.
pub(crate) fn add_unless(
    page: &mut Octets,
    attached: bool,
    route: &Route,
) -> Result<(), OutOfMemory>
    ensures { OnOk result (page.new ≡ page.old ++ lines.line_unless attached route.now) }
{
    if attached && is_default(route.rank) {
        return Ok(());
    }
    add_route(page, route)
}

/// Whether it is the way to an attached system.
fn is_default(rank: Rank) -> bool
    ensures { result ≡ lines.is_default rank }
{
    match rank {
        Rank::Own => false,
        Rank::One => false,
        Rank::Two => false,
        Rank::OneDown => false,
        Rank::Default => true,
    }
}
