//! Where octets are read from.
ghost use Rattle.std.specs.Prelude.{◌≡◌, ℕ, List, Bool, ◌<◌, ◌≤◌, length};
ghost use Rattle.isis_edge.specs.Faults.{Rose};
ghost use Rattle.isis_edge.specs.Sources.{Reads, OnFailed, UnlessFailed};

/// What a read gave.
#[derive(Clone, Copy, Debug, PartialEq, Eq)]
pub enum Got {
    /// So many octets, at least 1, now stand first in the buffer.
    Some(usize),
    /// The source is at its end.
    End,
    /// A fault of the source. It gave nothing.
    Failed,
}

/// What octets are read from.
pub trait Source {
    // The octets that it gave since it was made, in order.
    ghost gave: { Self → List ℕ };
    // Whether its last read that didn't fail gave its end.
    ghost ended: { Self → Bool };
    // The faults so far. A count at its type's last value counts as risen in every call.
    ghost faults: { Self → ℕ };

    /// Takes the next octets into the front of the buffer, which isn't empty. It may wait.
    fn read(&mut self, into: &mut [u8]) -> Got
        requires { 0 < length into.old }
        ensures octets { Reads (gave self.old) (gave self.new) (ended self.old) (ended self.new)
            result into.new }
        ensures later { faults self.old ≤ faults self.new }
        ensures cause { OnFailed result (Rose (faults self.old) (faults self.new)) }
        ensures quiet { UnlessFailed result (faults self.new ≡ faults self.old) };
}
