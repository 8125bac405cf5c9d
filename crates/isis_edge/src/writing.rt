//! Octets written to their end.
ghost use Rattle.std.specs.Prelude.{◌≡◌, ℕ, ◌<◌, ◌≤◌, length, take, OnOk, OnErr, IsOk};
ghost use Rattle.isis_edge.specs.Faults.{Rose};
ghost use Rattle.isis_edge.specs.Told.{Wrote};

use crate::sink::{Put, Sink};
use std::error::Error;
use std::fmt;

/// A write failed. What was written is a prefix of the piece, and not all of it.
#[derive(Clone, Copy, Debug, PartialEq, Eq)]
pub struct WriteFailed;

impl fmt::Display for WriteFailed {
    ghost use Rattle.std.specs.Prelude.{Some, codes};

    ghost output = { λ _. Some (codes "write fault") };

    fn fmt<W: fmt::Write>(&self, f: &mut fmt::Formatter<W>) -> fmt::Result {
        write!(f, "write fault")
    }
}

impl Error for WriteFailed {}

/// Writes the whole piece. At its first write that fails it stops; then a prefix of the piece was written.
pub fn write_all<O: Sink>(sink: &mut O, piece: &[u8]) -> Result<(), WriteFailed>
    ensures ok { OnOk result (Wrote (O.put sink.old) (O.put sink.new) piece.now) }
    ensures prefix { OnErr result ((count : ℕ) × (count < length piece.now)
        × Wrote (O.put sink.old) (O.put sink.new) (take count piece.now)) }
    ensures fault { OnErr result (Rose (O.faults sink.old) (O.faults sink.new)) }
    ensures later { O.faults sink.old ≤ O.faults sink.new }
    ensures complete { ¬ Rose (O.faults sink.old) (O.faults sink.new) → IsOk result }
{
    let mut rest = piece;
    while !rest.is_empty() {
        match sink.write(rest) {
            Put::Some(count) => rest = &rest[count..],
            Put::Failed => return Err(WriteFailed),
        }
    }
    Ok(())
}
