//! The text of the IPv4 routes of a system.
ghost use Rattle.std.specs.Prelude.{◌≡◌, ◌≤◌, Err, IsOkUnless};
ghost use Rattle.isis_edge.specs.Faults.{Rose};
ghost use Rattle.capture_text.specs.RoutesText.{IsRoutesText};
ghost use Rattle.capture_text.specs.TextEnds.{TextEnds};
ghost use Rattle.capture_text.specs.Left.{routes_left, route_calls};

use crate::absence::{Absence, absence_of};
use crate::best::best_routes;
use crate::head::add_head;
use crate::left::{Counts, RoutesText};
use crate::reading::read_capture;
use crate::route_lines::add_unless;
use ipv6_reach::parts::store;
use isis_base::{Level, Octets, OutOfMemory, SystemId};
use isis_edge::{Sink, Text, TextFailed, write_text};
use lsp_view::is_attached;
use std::alloc::Global;

/// Writes the IPv4 routes of a system (RFC 5302 3.2), in order of prefix, by the LSPs of a level that an input has in hex, a line
/// each. They are those of a router that runs this level alone; but where the system is attached to level 2 itself, the way to
/// another attached system is left out (own). Costs are in units of metrics. Answers what the LSPs lack of the system. Nothing
/// is written before all routes are found.
pub fn write_routes<O: Sink>(
    alloc: Global,
    level: Level,
    system: SystemId,
    input: &[u8],
    output: &mut O,
) -> Result<Option<Absence>, TextFailed>
    ensures ends { TextEnds (IsRoutesText level system input.now) (O.put output.old)
        (O.put output.new) result }
    ensures cause { result ≡ Err TextFailed.Write
        → Rose (O.faults output.old) (O.faults output.new) }
    ensures later { O.faults output.old ≤ O.faults output.new }
    ensures complete { ¬ Rose (O.faults output.old) (O.faults output.new)
        → IsOkUnless result TextFailed.OutOfMemory }
{
    let read = match read_capture(alloc, level, input) {
        Ok(read) => read,
        Err(OutOfMemory) => return Err(TextFailed::OutOfMemory),
    };
    let absence = absence_of(&read.capture, system);
    let attached = is_attached(store(&read.capture), system);
    let routes = match best_routes(alloc, level, system, store(&read.capture)) {
        Ok(routes) => routes,
        Err(OutOfMemory) => return Err(TextFailed::OutOfMemory),
    };
    let mut text = RoutesText {
        head: Some(Counts {
            kept: read.kept,
            skipped: read.skipped,
        }),
        attached,
        routes: routes.list(),
    };
    match write_text(alloc, &mut text, output) {
        Ok(()) => Ok(absence),
        Err(failed) => Err(failed),
    }
}

impl<'t> Text for RoutesText<'t> {
    ghost rest = { routes_left };

    ghost calls = { route_calls };

    fn add_next(&mut self, page: &mut Octets) -> Result<bool, OutOfMemory> {
        if let Some(counts) = self.head {
            add_head(page, b"isis-routes 1", counts)?;
            self.head = None;
            return Ok(true);
        }
        if let [route, others @ ..] = self.routes {
            add_unless(page, self.attached, route)?;
            self.routes = others;
            return Ok(true);
        }
        Ok(false)
    }
}
