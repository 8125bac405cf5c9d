//! The lines of a router's routes.
ghost use Rattle.std.specs.Prelude.{◌≡◌, ◌++◌, OnOk};
ghost use Rattle.std.specs.List.{flat_map};
ghost use Rattle.route_text.specs.RouteLine.{route_line};

use isis_base::{Octets, OutOfMemory};
use route_table::Route;
use route_text::add_route;

/// Adds a line for each route, by prefix.
pub(crate) fn add_routes(page: &mut Octets, routes: &[Route]) -> Result<(), OutOfMemory>
    ensures { OnOk result (page.new ≡ page.old ++ flat_map route_line routes.now) }
{
    for route in routes {
        match add_route(page, route) {
            Ok(()) => {}
            Err(error) => return Err(error),
        }
    }
    Ok(())
}
