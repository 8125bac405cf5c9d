//! What is heard.
ghost use Rattle.std.specs.Prelude.{◌≡◌};
ghost use Rattle.adjacency.specs.Views.{hello_of};
ghost use Rattle.router_desk.specs.Heard.{hello_heard};

use crate::envelope::Envelope;
use adjacency::HelloFields;
use flag_sync::LspHeard;
use isis_base::{AreaAddress, Level, LevelSet, LspEntry, LspId, NodeId, Snpa, SystemId};
use isis_tlv::ThreeWay;

/// What a hello says (ISO 10589 9.5 to 9.7), with its area addresses, and what its frame says (own). Of a point-to-point hello
/// priority and LAN ID are 0, and no SNPA is listed.
#[derive(Debug, Drop)]
pub struct HelloHeard {
    pub source: SystemId,
    pub snpa: Snpa,
    pub boot: u32,
    pub levels: LevelSet,
    pub holding: u16,
    pub priority: u8,
    pub lan: NodeId,
    pub areas: Vec<AreaAddress>,
    pub three_way: Option<ThreeWay>,
    pub names_me: bool,
}

impl HelloHeard {
    /// Its fields, as adjacencies take them.
    pub fn fields(&self) -> HelloFields<'_>
        ensures { hello_of result ≡ hello_heard self.now }
    {
        HelloFields {
            source: self.source,
            snpa: self.snpa,
            boot: self.boot,
            levels: self.levels,
            holding: self.holding,
            priority: self.priority,
            lan: self.lan,
            areas: &self.areas,
            three_way: self.three_way,
            names_me: self.names_me,
        }
    }
}

/// What a PDU says that a router takes: a hello; an LSP, or a sequence number PDU with its source,
/// the range of a CSNP and its entries, with its envelope.
#[derive(Debug, Drop)]
pub enum Heard<'a> {
    PointHello(HelloHeard),
    LanHello(Level, HelloHeard),
    Lsp {
        level: Level,
        from: Envelope,
        lsp: LspHeard<'a>,
    },
    Snp {
        level: Level,
        from: Envelope,
        source: SystemId,
        range: Option<(LspId, LspId)>,
        entries: Vec<LspEntry>,
    },
}
