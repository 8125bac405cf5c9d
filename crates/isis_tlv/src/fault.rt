//! Where a value doesn't fit.
use std::error::Error;
use std::fmt;

/// An item of a value doesn't fit. `place` is that of its first octet, counted from 0 in the value.
#[derive(Clone, Copy, Debug, PartialEq, Eq)]
pub struct ValueFault {
    pub place: usize,
}

impl fmt::Display for ValueFault {
    ghost use Rattle.std.specs.Prelude.{Some};
    ghost use Rattle.isis_tlv.specs.Faults.{value_fault_text};

    ghost output = { λ fault. Some (value_fault_text fault) };

    fn fmt<W: fmt::Write>(&self, f: &mut fmt::Formatter<W>) -> fmt::Result {
        let place = self.place;
        write!(f, "the item at octet {place} of the value doesn't fit")
    }
}

impl Error for ValueFault {}
