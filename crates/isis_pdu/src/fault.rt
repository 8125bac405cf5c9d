//! Why octets are no PDU.
use std::error::Error;
use std::fmt;

/// What makes octets no PDU (ISO 10589 9).
#[derive(Clone, Copy, Debug, PartialEq, Eq)]
pub enum PduFaultKind {
    /// There are fewer octets than the header has. The place is the number of octets.
    Short,
    /// The first octet isn't that of IS-IS, 0x83.
    Discriminator,
    /// One of the two versions isn't 1.
    Version,
    /// The length of system IDs isn't 6, nor 0, which means the same.
    IdLength,
    /// The type is none of the nine.
    PduType,
    /// The number of area addresses isn't 3, nor 0, which means the same.
    MaxAreas,
    /// The header length isn't that of the type.
    HeaderLength,
    /// A hello's circuit type has no level.
    CircuitType,
    /// The PDU length is below that of the header or above the number of octets. The place is that of its first octet.
    PduLength,
    /// The octets behind the header aren't TLVs to their end. The place is that of the faulty TLV's code.
    Tlv,
}

/// The octets are no PDU. `place` is that of the octet at fault, counted from 0.
#[derive(Clone, Copy, Debug, PartialEq, Eq)]
pub struct PduFault {
    pub kind: PduFaultKind,
    pub place: usize,
}

impl fmt::Display for PduFaultKind {
    ghost use Rattle.std.specs.Prelude.{Some};
    ghost use Rattle.isis_pdu.specs.Faults.{kind_text};

    ghost output = { λ kind. Some (kind_text kind) };

    fn fmt<W: fmt::Write>(&self, f: &mut fmt::Formatter<W>) -> fmt::Result {
        match self {
            PduFaultKind::Short => write!(f, "the header ends too early"),
            PduFaultKind::Discriminator => write!(f, "the protocol isn't IS-IS"),
            PduFaultKind::Version => write!(f, "the version isn't 1"),
            PduFaultKind::IdLength => write!(f, "system IDs don't have six octets"),
            PduFaultKind::PduType => write!(f, "the type is unknown"),
            PduFaultKind::MaxAreas => write!(f, "the number of area addresses isn't three"),
            PduFaultKind::HeaderLength => write!(f, "the header length isn't that of the type"),
            PduFaultKind::CircuitType => write!(f, "the circuit type has no level"),
            PduFaultKind::PduLength => write!(f, "the PDU length doesn't fit"),
            PduFaultKind::Tlv => write!(f, "the TLV doesn't fit"),
        }
    }
}

impl fmt::Display for PduFault {
    ghost use Rattle.std.specs.Prelude.{Some};
    ghost use Rattle.isis_pdu.specs.Faults.{pdu_fault_text};

    ghost output = { λ fault. Some (pdu_fault_text fault) };

    fn fmt<W: fmt::Write>(&self, f: &mut fmt::Formatter<W>) -> fmt::Result {
        let place = self.place;
        let kind = self.kind;
        write!(f, "at octet {place}: {kind}")
    }
}

impl Error for PduFault {}
