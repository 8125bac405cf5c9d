//! Ports: opened at their circuits' places, and closed.
ghost use Rattle.std.specs.Prelude.{◌≡◌, ◌≤◌, ℕ, List, [], ◌∷◌, IfOk, OnErr};
ghost use Rattle.isis_edge.specs.Faults.{one_more, Rose};
ghost use Rattle.daemon_edge.specs.Closings.{Closing, closing, opened_at};
ghost use Rattle.daemon_edge.specs.Ports.{Adds, IsFresh};

use crate::place::CircuitPlace;
use crate::port::Port;
use std::net::Net;

/// No port could be opened.
#[derive(Clone, Copy, PartialEq, Eq, Debug)]
pub struct Refused;

/// What opens the ports of a router's circuits, and closes them (own).
pub trait Ports {
    type Port: Port + Drop + Send;

    // The ports opened. It stands still at its type's last value.
    ghost opened: { Self → ℕ };
    // What the closed ports told, in the order in which they were closed.
    ghost closed: { Self → List Closing };
    // The openings refused. A count at its type's last value counts as risen in every call.
    ghost faults: { Self → ℕ };

    /// Opens the port of a circuit at its place. It has given and was offered nothing.
    fn open<R: Net>(
        &mut self,
        rt: &R,
        circuit: u8,
        place: CircuitPlace,
    ) -> Result<Self::Port, Refused>
        ensures opening { IfOk result (λ port. Self.Port.opening port ≡ opened_at circuit place) }
        ensures fresh { IfOk result (λ port. IsFresh (Self.Port.given port) (Self.Port.offered port)
            (Self.Port.asked port)) }
        ensures opened { IfOk result (λ port. opened self.new ≡ one_more (opened self.old)) }
        ensures refused { OnErr result (opened self.new ≡ opened self.old) }
        ensures closed { Adds (closed self.old) (closed self.new) [] }
        ensures later { faults self.old ≤ faults self.new }
        ensures cause { OnErr result (Rose (faults self.old) (faults self.new)) };

    /// Closes the port of a circuit.
    fn close(&mut self, circuit: u8, port: Self::Port)
        ensures opened { opened self.new ≡ opened self.old }
        ensures closed { Adds (closed self.old) (closed self.new)
            (closing (Self.Port.opening port) (Self.Port.given port) (Self.Port.offered port)
            (Self.Port.asked port) ∷ []) }
        ensures faults { faults self.new ≡ faults self.old };
}
