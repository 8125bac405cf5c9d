//! A PDU taken apart into its header's fields and its TLVs, and put together again.
ghost use Rattle.std.specs.Prelude.{◌≡◌};
ghost use Rattle.isis_pdu.specs.Views.{pdu_view};
ghost use Rattle.router_desk.specs.Headers.{header_of, pdu_with, header_kind};

use crate::header::Header;
use isis_base::PduKind;
use isis_pdu::Pdu;

impl Header {
    /// The fields of a PDU's header.
    pub(crate) fn of(pdu: &Pdu<'_>) -> Header
        ensures { result ≡ header_of (pdu_view pdu.now) }
    {
        match *pdu {
            Pdu::LanHello {
                level,
                circuit_type,
                source,
                holding,
                priority,
                lan,
                ..
            } => Header::LanHello {
                level,
                circuit_type,
                source,
                holding,
                priority,
                lan,
            },
            Pdu::PointHello {
                circuit_type,
                source,
                holding,
                circuit,
                ..
            } => Header::PointHello {
                circuit_type,
                source,
                holding,
                circuit,
            },
            Pdu::Lsp {
                level,
                lifetime,
                id,
                number,
                checksum,
                flags,
                ..
            } => Header::Lsp {
                level,
                lifetime,
                id,
                number,
                checksum,
                flags,
            },
            Pdu::Csnp {
                level,
                source,
                start,
                end,
                ..
            } => Header::Csnp {
                level,
                source,
                start,
                end,
            },
            Pdu::Psnp { level, source, .. } => Header::Psnp { level, source },
        }
    }

    /// The PDU of these fields and TLVs.
    pub(crate) fn with_tlvs<'a>(&self, tlvs: &'a [u8]) -> Pdu<'a>
        ensures { pdu_view result ≡ pdu_with self.now tlvs.now }
    {
        match *self {
            Header::LanHello {
                level,
                circuit_type,
                source,
                holding,
                priority,
                lan,
            } => Pdu::LanHello {
                level,
                circuit_type,
                source,
                holding,
                priority,
                lan,
                tlvs,
            },
            Header::PointHello {
                circuit_type,
                source,
                holding,
                circuit,
            } => Pdu::PointHello {
                circuit_type,
                source,
                holding,
                circuit,
                tlvs,
            },
            Header::Lsp {
                level,
                lifetime,
                id,
                number,
                checksum,
                flags,
            } => Pdu::Lsp {
                level,
                lifetime,
                id,
                number,
                checksum,
                flags,
                tlvs,
            },
            Header::Csnp {
                level,
                source,
                start,
                end,
            } => Pdu::Csnp {
                level,
                source,
                start,
                end,
                tlvs,
            },
            Header::Psnp { level, source } => Pdu::Psnp {
                level,
                source,
                tlvs,
            },
        }
    }

    /// The type that this is the header of.
    pub(crate) fn kind(&self) -> PduKind
        ensures { result ≡ header_kind self.now }
    {
        match *self {
            Header::LanHello { level, .. } => PduKind::LanHello(level),
            Header::PointHello { .. } => PduKind::PointHello,
            Header::Lsp { level, .. } => PduKind::Lsp(level),
            Header::Csnp { level, .. } => PduKind::Csnp(level),
            Header::Psnp { level, .. } => PduKind::Psnp(level),
        }
    }
}
