//! The value of a PDU.
use isis_base::{Level, LevelSet, LspId, NodeId, SystemId};

/// A PDU (ISO 10589 9). `tlvs` are the octets behind its header. Times are in seconds.
#[derive(Clone, Copy, Debug, PartialEq, Eq)]
pub enum Pdu<'a> {
    /// A hello of one level on a LAN. `lan` is the LAN ID, the designated system's.
    LanHello {
        level: Level,
        circuit_type: LevelSet,
        source: SystemId,
        holding: u16,
        priority: u8,
        lan: NodeId,
        tlvs: &'a [u8],
    },
    /// A hello on a point-to-point link. `circuit` is the sender's circuit number.
    PointHello {
        circuit_type: LevelSet,
        source: SystemId,
        holding: u16,
        circuit: u8,
        tlvs: &'a [u8],
    },
    /// A link state PDU. `lifetime` is what remains, 0 in a purge; `number` is the sequence number.
    Lsp {
        level: Level,
        lifetime: u16,
        id: LspId,
        number: u32,
        checksum: u16,
        flags: u8,
        tlvs: &'a [u8],
    },
    /// A complete list of LSPs from `start` to `end`, both included.
    Csnp {
        level: Level,
        source: NodeId,
        start: LspId,
        end: LspId,
        tlvs: &'a [u8],
    },
    /// A list of some LSPs.
    Psnp {
        level: Level,
        source: NodeId,
        tlvs: &'a [u8],
    },
}
