//! What a hello says, what is one's own, and what comes of a hello.
use isis_base::{AreaAddress, LevelSet, NodeId, Snpa, SystemId};
use isis_tlv::ThreeWay;

/// One's own part: the system, the extended circuit ID of the circuit (RFC 5303 3.1), the levels
/// that are run, and the area addresses.
#[derive(Clone, Copy)]
pub struct Own<'a> {
    pub system: SystemId,
    pub id: u32,
    pub levels: LevelSet,
    pub areas: &'a [AreaAddress],
}

/// What a hello says (ISO 10589 9.5 to 9.7): its source, the SNPA and the boot number that it came from, the levels
/// of its circuit type, the holding time in seconds, the priority and the LAN ID of a LAN hello,
/// the area addresses, the three-way value (RFC 5303 3.1), and whether it lists one's own SNPA
/// among those that its sender hears.
#[derive(Clone, Copy)]
pub struct HelloFields<'a> {
    pub source: SystemId,
    pub snpa: Snpa,
    pub boot: u32,
    pub levels: LevelSet,
    pub holding: u16,
    pub priority: u8,
    pub lan: NodeId,
    pub areas: &'a [AreaAddress],
    pub three_way: Option<ThreeWay>,
    pub names_me: bool,
}

/// Why a hello is refused, in the order of the tests (ISO 10589 8.2.4.2, RFC 5303 3.2; the order:
/// own).
#[derive(Clone, Copy, Debug, PartialEq, Eq)]
pub enum HelloDrop {
    /// The source is one's own system.
    OwnId,
    /// The source isn't the SNPA that the hello came from.
    OtherSnpa,
    /// The boot number is below the greatest that is remembered of the source (own).
    OldBoot,
    /// No level is in common.
    NoLevel,
    /// No level is in common, though both run level 1: no area address is shared.
    NoArea,
    /// A point-to-point hello has no three-way value.
    NoThreeWay,
    /// The three-way value names another system or circuit.
    OtherNeighbour,
    /// A LAN neighbour is new where 200 are heard, or the source isn't remembered where 256 systems are.
    TooMany,
}

/// What became of an adjacency.
#[derive(Clone, Copy, Debug, PartialEq, Eq)]
pub enum AdjChange {
    /// It is in the same state, with the same neighbour.
    None,
    /// It changed in another way than to or from Up.
    Moved,
    /// It came up, or it is up with another neighbour than before.
    WentUp,
    /// It was up and isn't.
    LeftUp,
}
