//! Where octets are written to.
ghost use Rattle.std.specs.Prelude.{◌≡◌, ℕ, List, ◌<◌, ◌≤◌, length};
ghost use Rattle.isis_edge.specs.Faults.{Rose};
ghost use Rattle.isis_edge.specs.Sinks.{Writes, OnFailed, UnlessFailed};

/// What a write did.
#[derive(Clone, Copy, Debug, PartialEq, Eq)]
pub enum Put {
    /// So many octets, at least 1, were written from the front of the piece.
    Some(usize),
    /// A fault of the sink. Nothing was written.
    Failed,
}

/// What octets are written to.
pub trait Sink: Send {
    // The octets put into it since it was made: those that its writes told to be written, in order.
    ghost put: { Self → List ℕ };
    // The faults so far. A count at its type's last value counts as risen in every call.
    ghost faults: { Self → ℕ };

    /// Writes octets from the front of the piece, which isn't empty. It may wait.
    fn write(&mut self, piece: &[u8]) -> Put
        requires { 0 < length piece.now }
        ensures octets { Writes (put self.old) (put self.new) result piece.now }
        ensures later { faults self.old ≤ faults self.new }
        ensures cause { OnFailed result (Rose (faults self.old) (faults self.new)) }
        ensures quiet { UnlessFailed result (faults self.new ≡ faults self.old) };
}
