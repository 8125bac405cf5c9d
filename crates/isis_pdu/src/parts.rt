//! What every PDU has: its type, its header's length and its TLVs.
ghost use Rattle.std.specs.Prelude.{◌≡◌};
ghost use Rattle.isis_base.specs.PduKinds.{header_length};
ghost use Rattle.isis_pdu.specs.Layout.{kind_of};
ghost use Rattle.isis_pdu.specs.Views.{pdu_view, tlvs_of_pdu};

use crate::pdu::Pdu;
use isis_base::PduKind;

impl<'a> Pdu<'a> {
    /// The type of this PDU.
    pub fn kind(&self) -> PduKind
        ensures { result ≡ kind_of (pdu_view self.now) }
    {
        match *self {
            Pdu::LanHello { level, .. } => PduKind::LanHello(level),
            Pdu::PointHello { .. } => PduKind::PointHello,
            Pdu::Lsp { level, .. } => PduKind::Lsp(level),
            Pdu::Csnp { level, .. } => PduKind::Csnp(level),
            Pdu::Psnp { level, .. } => PduKind::Psnp(level),
        }
    }

    /// The octets behind the header.
    pub fn tlvs(&self) -> &'a [u8]
        ensures { result.now ≡ tlvs_of_pdu (pdu_view self.now) }
    {
        match *self {
            Pdu::LanHello { tlvs, .. }
            | Pdu::PointHello { tlvs, .. }
            | Pdu::Lsp { tlvs, .. }
            | Pdu::Csnp { tlvs, .. }
            | Pdu::Psnp { tlvs, .. } => tlvs,
        }
    }

    /// The number of octets of its header.
    pub fn header_len(&self) -> usize
        ensures { result ≡ header_length (kind_of (pdu_view self.now)) }
    {
        usize::from(self.kind().header_length())
    }
}
