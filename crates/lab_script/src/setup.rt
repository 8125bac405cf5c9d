//! What the setup lines of a lab script say: its routers, its links and the keys that they are given.
use crate::name::Name;
use crate::script_list::ScriptList;
use isis_base::{AreaAddress, CircuitKind, LevelSet, SystemId};
use line_cuts::Hex;

/// A router of a lab script.
#[derive(Drop)]
pub struct LabRouter<'a> {
    pub name: Name<'a>,
    pub system: SystemId,
    pub area: AreaAddress,
    pub levels: LevelSet,
    /// Whether it tells level 1 what it knows of level 2 (RFC 5302 3).
    pub leak: bool,
    /// The priority of its LAN circuits, up to 127.
    pub priority: u8,
}

/// An end of a link: a circuit of a router. Routers are numbered from 0, and so are a router's circuits, in the order in
/// which lines name them.
#[derive(Clone, Copy, Debug, PartialEq, Eq)]
pub struct End {
    pub router: usize,
    pub place: usize,
}

/// A link or a LAN of a lab script, by its kind and its ends: two of a point-to-point link, those of a LAN as its line
/// names its members.
#[derive(Drop)]
pub struct LabLink<'a> {
    pub name: Name<'a>,
    pub kind: CircuitKind,
    pub ends: ScriptList<End>,
    pub metric: u32,
}

/// Which PDUs of a router a key signs: level 1 LSPs and SNPs, those of level 2, or the hellos of one of its circuits.
#[derive(Clone, Copy, Debug, PartialEq, Eq)]
pub enum KeyScope {
    Area,
    Domain,
    Circuit { place: usize },
}

/// A key that a router is given. Where two lines give one for the same, the later one counts.
#[derive(Drop)]
pub struct LabKey<'a> {
    pub router: usize,
    pub scope: KeyScope,
    /// 1 to 128 octets.
    pub key: Hex<'a>,
}
