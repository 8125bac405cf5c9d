//! The fields of a PDU's header.
use isis_base::{Level, LevelSet, LspId, NodeId, SystemId};

/// The fields of a PDU's header, by its type, as `Pdu` has them beside its TLVs (ISO 10589 9.5 to
/// 9.13).
#[derive(Clone, Copy, Debug)]
pub(crate) enum Header {
    LanHello {
        level: Level,
        circuit_type: LevelSet,
        source: SystemId,
        holding: u16,
        priority: u8,
        lan: NodeId,
    },
    PointHello {
        circuit_type: LevelSet,
        source: SystemId,
        holding: u16,
        circuit: u8,
    },
    Lsp {
        level: Level,
        lifetime: u16,
        id: LspId,
        number: u32,
        checksum: u16,
        flags: u8,
    },
    Csnp {
        level: Level,
        source: NodeId,
        start: LspId,
        end: LspId,
    },
    Psnp {
        level: Level,
        source: NodeId,
    },
}
