//! The hellos of a circuit, as datagrams.
ghost use Rattle.std.specs.Prelude.{◌≡◌, ◌≤◌, ◌<◌, ◌-◌, ◌+◌, ◌*◌, ◌^◌, ◌++◌, ◌∷◌, [], OnOk};
ghost use Rattle.model_router.specs.Both.{at};
ghost use Rattle.model_router.specs.Datagrams as sent;
ghost use Rattle.model_router.specs.Pulls as pulls;
ghost use Rattle.model_router.specs.Routers.{Router, extended_of};
ghost use Rattle.adjacency.specs.Views.{point_of};
ghost use Rattle.router_sending.specs.Sends.{Sends, FitAreas, names_of};
ghost use Rattle.router_core.specs.Sending.{octets_of, all_octets};

use crate::datagrams::Datagrams;
use adjacency::P2pAdj;
use isis_base::{Level, OutOfMemory, SystemId};
use model_router::has_level;
use router_circuits::Circuit;
use router_sending::{Sender, lan_hello, point_hello};
use std::alloc::Global;

/// Adds the hellos of a circuit (ISO 10589 8.2.3, 8.4.1).
pub(crate) fn put_hellos(
    out: &mut Datagrams,
    alloc: Global,
    sender: &Sender<'_>,
    on: &Circuit,
) -> Result<(), OutOfMemory>
    requires here { 1 ≤ sender.now.circuit }
    requires areas { FitAreas sender.now }
    requires priority { sender.now.priority ≤ 127 }
    requires boot { sender.now.boot < 2 ^ 24 }
    ensures { (r : Router) → Sends sender.now r.config r.boot (sender.now.circuit - 1) on.now
        → OnOk result (out.new ≡ out.old
        ++ all_octets sender.now (pulls.hellos r (sender.now.circuit - 1) on.now)) }
{
    match on.point() {
        Some(point) => put_point(out, alloc, sender, point),
        None => {
            put_lan(out, alloc, sender, on, Level::One)?;
            put_lan(out, alloc, sender, on, Level::Two)
        }
    }
}

/// Adds the hello of a point-to-point circuit (ISO 10589 8.2.3, RFC 5303 3.2).
fn put_point(
    out: &mut Datagrams,
    alloc: Global,
    sender: &Sender<'_>,
    point: &P2pAdj,
) -> Result<(), OutOfMemory>
    requires here { 1 ≤ sender.now.circuit }
    requires areas { FitAreas sender.now }
    requires boot { sender.now.boot < 2 ^ 24 }
    ensures { OnOk result (out.new ≡ out.old ++ octets_of sender.now (sent.PointHello
        (point_of point.now).state (extended_of sender.now.boot (sender.now.circuit - 1))
        (pulls.names_of (point_of point.now).neighbour)) ∷ []) }
{
    let extended = extended(sender.boot, sender.circuit);
    let octets = point_hello(alloc, sender, point.state(), extended, named(point))?;
    out.push(octets)
}

/// The extended circuit ID: the boot and the circuit's number (own).
fn extended(boot: u32, circuit: u8) -> u32
    requires { boot < 2 ^ 24 }
    ensures { result ≡ 256 * boot + circuit }
{
    256 * boot + u32::from(circuit)
}

/// The system and extended circuit ID that an adjacency keeps (RFC 5303 3.1).
fn named(point: &P2pAdj) -> Option<(SystemId, u32)>
    ensures { names_of result ≡ pulls.names_of (point_of point.now).neighbour }
{
    match point.neighbour() {
        Some(neighbour) => Some((neighbour.system, neighbour.id)),
        None => None,
    }
}

/// Adds the hello of a level on a LAN, where the level is run (ISO 10589 8.4.1).
fn put_lan(
    out: &mut Datagrams,
    alloc: Global,
    sender: &Sender<'_>,
    on: &Circuit,
    level: Level,
) -> Result<(), OutOfMemory>
    requires here { 1 ≤ sender.now.circuit }
    requires areas { FitAreas sender.now }
    requires priority { sender.now.priority ≤ 127 }
    ensures { (r : Router) → Sends sender.now r.config r.boot (sender.now.circuit - 1) on.now
        → OnOk result (out.new ≡ out.old ++ all_octets sender.now
        (pulls.lan_hello r (sender.now.circuit - 1) on.now level)) }
{
    if has_level(sender.levels, level) {
        return put_run(out, alloc, sender, on, level);
    }
    Ok(())
}

/// Adds the hello of a level that is run (ISO 10589 8.4.1).
fn put_run(
    out: &mut Datagrams,
    alloc: Global,
    sender: &Sender<'_>,
    on: &Circuit,
    level: Level,
) -> Result<(), OutOfMemory>
    requires here { 1 ≤ sender.now.circuit }
    requires areas { FitAreas sender.now }
    requires priority { sender.now.priority ≤ 127 }
    ensures { (r : Router) → Sends sender.now r.config r.boot (sender.now.circuit - 1) on.now
        → OnOk result (out.new ≡ out.old ++ octets_of sender.now (sent.LanHello level
        (pulls.lan_of r (sender.now.circuit - 1) on.now level)
        (pulls.snpas_of (at on.now.levels level).heard)) ∷ []) }
{
    let heard = on.heard(level);
    let lan = on.lan_id(sender.system, sender.circuit, level);
    let octets = lan_hello(alloc, sender, level, lan, heard)?;
    out.push(octets)
}
