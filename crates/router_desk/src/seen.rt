//! A datagram's sender and PDU, lent.
use crate::envelope::Envelope;
use isis_pdu::Pdu;

/// Whom a datagram is from, and its PDU with the PDU's octets.
#[derive(Clone, Copy, Debug)]
pub struct Seen<'a> {
    pub from: Envelope,
    pub pdu: Pdu<'a>,
    pub octets: &'a [u8],
}
