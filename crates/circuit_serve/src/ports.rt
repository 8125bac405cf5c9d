//! The ports of a daemon, opened and closed.
ghost use Rattle.std.specs.Prelude.{◌≡◌, ◌+◌, ◌<◌, ◌≤◌, [], ◌∷◌, ◌++◌, ℕ, map, length, vec_len, vec_capacity, slice_get, Ok, IfSome, OnErr};
ghost use Rattle.isis_edge.specs.Faults.{Rose};
ghost use Rattle.daemon_edge.specs.Closings.{closing};
ghost use Rattle.daemon_edge.specs.Ports.{Adds, IsFresh};
ghost use Rattle.circuit_serve.specs.Openings.{counted, OpenedSo};

use daemon_edge::{Places, Ports, Refused};
use std::net::Net;

/// Opens the ports of a router's circuits, each at its place, until an opening is refused.
pub(crate) fn open_ports<P: Ports, R: Net>(
    rt: &R,
    ports: &mut P,
    places: Places,
    opened: Vec<P::Port>,
) -> (Vec<P::Port>, Result<(), Refused>)
    requires room { (opened.items ≡ []) × (length places ≤ vec_capacity opened) }
    requires few { length places ≤ 255 }
    ensures openings { OpenedSo P.Port.opening places result.0.items (result.1 ≡ Ok tt) }
    ensures fresh { (i : ℕ) → IfSome (slice_get result.0.items i)
        (λ p. IsFresh (P.Port.given p) (P.Port.offered p) (P.Port.asked p)) }
    ensures count { P.opened ports.new ≡ counted (length result.0.items) (P.opened ports.old) }
    ensures closed { Adds (P.closed ports.old) (P.closed ports.new) [] }
    ensures later { P.faults ports.old ≤ P.faults ports.new }
    ensures cause { OnErr result.1 (Rose (P.faults ports.old) (P.faults ports.new)) }
{
    let mut list = opened;
    let mut circuit: u8 = 0;
    for place in places.into_items() {
        circuit += 1;
        match ports.open(rt, circuit, place) {
            Ok(port) => list = put(list, port),
            Err(refused) => return (list, Err(refused)),
        }
    }
    (list, Ok(()))
}

/// Closes ports, in order.
pub(crate) fn close_ports<P: Ports>(ports: &mut P, opened: Vec<P::Port>)
    requires few { length opened.items ≤ 255 }
    ensures count { P.opened ports.new ≡ P.opened ports.old }
    ensures closed { Adds (P.closed ports.old) (P.closed ports.new)
        (map (λ p. closing (P.Port.opening p) (P.Port.given p) (P.Port.offered p)
        (P.Port.asked p)) opened.items) }
    ensures faults { P.faults ports.new ≡ P.faults ports.old }
{
    let mut circuit: u8 = 0;
    for port in opened {
        circuit += 1;
        ports.close(circuit, port);
    }
}

/// Adds an item, for which there is room.
fn put<X>(list: Vec<X>, item: X) -> Vec<X>
    requires { vec_len list < vec_capacity list }
    ensures items { result.items ≡ list.items ++ item ∷ [] }
    ensures capacity { vec_capacity list ≤ vec_capacity result }
{
    let mut list = list;
    match list.push(item) {
        Ok(()) => list,
        Err(_) => unreachable!(),
    }
}
