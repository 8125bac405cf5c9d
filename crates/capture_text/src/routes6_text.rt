//! The text of the IPv6 routes of a system.
ghost use Rattle.std.specs.Prelude.{◌≡◌, ◌≤◌, Err, IsOkUnless};
ghost use Rattle.isis_edge.specs.Faults.{Rose};
ghost use Rattle.capture_text.specs.Routes6Text.{IsRoutes6Text};
ghost use Rattle.capture_text.specs.TextEnds.{TextEnds};
ghost use Rattle.capture_text.specs.Left.{routes6_left, route6_calls};

use crate::absence::{Absence, absence_of};
use crate::head::add_head;
use crate::left::{Counts, Routes6Text};
use crate::reading::read_capture;
use crate::route6_lines::add_route6;
use ipv6_reach::routes6;
use isis_base::{Level, Octets, OutOfMemory, SystemId};
use isis_edge::{Sink, Text, TextFailed, write_text};
use std::alloc::Global;

/// Writes the IPv6 routes of a system (RFC 5308 5), in order of prefix, by the LSPs of a level that an input has in hex, a line
/// each. Costs are in units of metrics. Answers what the LSPs lack of the system. Nothing is written before all routes are
/// found.
pub fn write_routes6<O: Sink>(
    alloc: Global,
    level: Level,
    system: SystemId,
    input: &[u8],
    output: &mut O,
) -> Result<Option<Absence>, TextFailed>
    ensures ends { TextEnds (IsRoutes6Text level system input.now) (O.put output.old)
        (O.put output.new) result }
    ensures cause { result ≡ Err TextFailed.Write
        → Rose (O.faults output.old) (O.faults output.new) }
    ensures later { O.faults output.old ≤ O.faults output.new }
    ensures complete { ¬ Rose (O.faults output.old) (O.faults output.new)
        → IsOkUnless result TextFailed.OutOfMemory }
{
    let read = match read_capture(alloc, level, input) {
        Ok(read) => read,
        Err(OutOfMemory) => return Err(TextFailed::OutOfMemory),
    };
    let absence = absence_of(&read.capture, system);
    let routes = match routes6(&read.capture, system) {
        Ok(routes) => routes,
        Err(OutOfMemory) => return Err(TextFailed::OutOfMemory),
    };
    let mut text = Routes6Text {
        alloc,
        head: Some(Counts {
            kept: read.kept,
            skipped: read.skipped,
        }),
        routes: routes.as_slice(),
    };
    match write_text(alloc, &mut text, output) {
        Ok(()) => Ok(absence),
        Err(failed) => Err(failed),
    }
}

impl<'t> Text for Routes6Text<'t> {
    ghost rest = { routes6_left };

    ghost calls = { route6_calls };

    fn add_next(&mut self, page: &mut Octets) -> Result<bool, OutOfMemory> {
        if let Some(counts) = self.head {
            add_head(page, b"isis-routes6 1", counts)?;
            self.head = None;
            return Ok(true);
        }
        if let [route, others @ ..] = self.routes {
            add_route6(self.alloc, page, route)?;
            self.routes = others;
            return Ok(true);
        }
        Ok(false)
    }
}
