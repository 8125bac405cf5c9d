//! The circuits that are the ends of links and LANs.
ghost use Rattle.std.specs.Prelude.{◌≡◌, ◌+◌, Some, IfSome};
ghost use Rattle.model_router.specs.Places.{nth};
ghost use Rattle.router_desk.specs.Desks as desk;
ghost use Rattle.network_lab.specs.Passed.{IsThere};
ghost use Rattle.network_lab.specs.Claims.{IsEndIn};
ghost use Rattle.network_lab.specs.LinkStates.{is_point_in};
ghost use Rattle.lab_report.specs.LanLines.{is_lan_in};

use isis_base::{CircuitKind, Level};
use model_network::End;
use network_lab::{Network, Router};

/// Whether an end's circuit is point-to-point and its router runs the level.
pub(crate) fn is_point(net: &Network, end: End, level: Level) -> bool
    requires { IsEndIn net.now.seen.routers end }
    ensures { result ≡ is_point_in (nth net.now.seen.routers end.router) end.place level }
{
    let circuit = circuit_of(net, end);
    let router = router_of(net, end);
    router.book(level).is_some() && is_point_kind(router.desk().kind(circuit))
}

/// Whether an end's circuit is one of a LAN and its router runs the level.
pub(crate) fn is_lan(net: &Network, end: End, level: Level) -> bool
    requires { IsEndIn net.now.seen.routers end }
    ensures { result ≡ is_lan_in (nth net.now.seen.routers end.router) end.place level }
{
    let circuit = circuit_of(net, end);
    let router = router_of(net, end);
    router.book(level).is_some() && is_lan_kind(router.desk().kind(circuit))
}

/// The router of an end.
pub(crate) fn router_of(net: &Network, end: End) -> &Router
    requires { IsEndIn net.now.seen.routers end }
    ensures { nth net.now.seen.routers end.router ≡ Some result.now }
{
    net.router(end.router)
}

/// The number of an end's circuit, counted from 1.
fn circuit_of(net: &Network, end: End) -> u8
    requires { IsEndIn net.now.seen.routers end }
    ensures number { result ≡ end.place + 1 }
    ensures there { IfSome (nth net.now.seen.routers end.router) (λ r. IsThere r result) }
{
    router_of(net, end).facts();
    end.place as u8 + 1
}

/// Whether a circuit is point-to-point.
fn is_point_kind(kind: CircuitKind) -> bool
    ensures { result ≡ desk.is_point kind }
{
    match kind {
        CircuitKind::PointToPoint => true,
        CircuitKind::Lan => false,
    }
}

/// Whether a circuit is one of a LAN.
fn is_lan_kind(kind: CircuitKind) -> bool
    ensures { result ≡ desk.is_lan kind }
{
    match kind {
        CircuitKind::PointToPoint => false,
        CircuitKind::Lan => true,
    }
}
