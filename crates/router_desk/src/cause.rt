//! The causes of a drop.
use adjacency::HelloDrop;
use hmac_auth::AuthFault;
use isis_pdu::{FrameFault, PduFault};

/// Why a datagram is dropped, in the order in which it is tested (own). The first test that fails
/// is the cause.
#[derive(Clone, Copy, Debug, PartialEq, Eq)]
pub enum DropCause {
    /// It has no frame.
    Frame(FrameFault),
    /// Its frame is of the first version.
    Version,
    /// The octets behind the frame are no PDU (ISO 10589 9).
    Pdu(PduFault),
    /// An LSP or SNP has a PDU length above 1,492 octets.
    TooLong,
    /// A LAN hello came on a point-to-point circuit, or the reverse.
    WrongKind,
    /// It is of a level that the router doesn't run.
    WrongLevel,
    /// There is a key, and the PDU isn't authentic under it (RFC 5304 3).
    Auth(AuthFault),
    /// A TLV that must be read has a value that doesn't fit. `place` is that of the first octet of
    /// the first item that doesn't, counted from 0 in the PDU.
    Value { place: usize },
    /// An LSP has sequence number 0 (ISO 10589 7.3.16.1).
    ZeroNumber,
    /// A live LSP's checksum is 0 or doesn't hold (ISO 10589 7.3.15.1).
    BadChecksum,
    /// A hello is refused (ISO 10589 8.2.4.2, 8.4.2, RFC 5303 3.2).
    Hello(HelloDrop),
    /// An LSP or SNP didn't come from an up neighbour of its level (ISO 10589 7.3.15.1, 7.3.15.2).
    NoAdjacency,
    /// A PSNP came on a LAN on which the router isn't designated (ISO 10589 7.3.15.2).
    NotDesignated,
    /// An LSP would be a level's 65,537th entry.
    StoreFull,
}
