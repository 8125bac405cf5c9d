//! A port: where the datagrams of a circuit come and go.
ghost use Rattle.std.specs.Prelude.{◌≡◌, ◌≤◌, ℕ, List, [], ◌∷◌, length};
ghost use Rattle.isis_edge.specs.Faults.{one_more, Rose};
ghost use Rattle.daemon_edge.specs.Closings.{Opening};
ghost use Rattle.daemon_edge.specs.Ports.{Adds, got, Fits, OnFailed, OnNotSent};

use std::time::Clock;

/// What a take gave.
#[derive(Clone, Copy, PartialEq, Eq, Debug)]
pub enum Taken {
    /// The next datagram, cut to the buffer's length, now stands in so many octets at the front.
    Got(usize),
    /// None came yet.
    NotYet,
    /// A fault of the port.
    Failed,
}

/// What an offer did.
#[derive(Clone, Copy, PartialEq, Eq, Debug)]
pub enum Offered {
    /// The datagram went to each peer.
    Sent,
    /// A fault of the port.
    Failed,
}

/// Where the datagrams of a circuit come and go (own).
pub trait Port {
    // The circuit and the place that it was opened with.
    ghost opening: { Self → Opening };
    // The datagrams given and those offered since it was opened, in order.
    ghost given: { Self → List (List ℕ) };

    ghost offered: { Self → List (List ℕ) };
    // The takes asked, and the faults. Both stand still at their type's last value.
    ghost asked: { Self → ℕ };

    ghost faults: { Self → ℕ };

    /// Puts the next datagram into the front of the buffer, cut to its length. It may wait. A buffer has 2,048 octets
    /// at least, so that no PDU is cut.
    fn take<R: Clock>(&mut self, rt: &R, buffer: &mut [u8]) -> Taken
        requires room { 2048 ≤ length buffer.old }
        ensures opening { opening self.new ≡ opening self.old }
        ensures fits { Fits result buffer.new }
        ensures given { Adds (given self.old) (given self.new) (got result buffer.new) }
        ensures offered { Adds (offered self.old) (offered self.new) [] }
        ensures asked { asked self.new ≡ one_more (asked self.old) }
        ensures later { faults self.old ≤ faults self.new }
        ensures cause { OnFailed result (Rose (faults self.old) (faults self.new)) };

    /// Sends a datagram. One that fails stands among those offered too.
    fn offer(&mut self, datagram: &[u8]) -> Offered
        ensures opening { opening self.new ≡ opening self.old }
        ensures given { Adds (given self.old) (given self.new) [] }
        ensures offered { Adds (offered self.old) (offered self.new) (datagram.now ∷ []) }
        ensures asked { asked self.new ≡ asked self.old }
        ensures later { faults self.old ≤ faults self.new }
        ensures cause { OnNotSent result (Rose (faults self.old) (faults self.new)) };
}
