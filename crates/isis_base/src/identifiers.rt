//! System IDs, SNPAs, node IDs and LSP IDs.

/// The ID of a system (ISO 10589 7.1.4), in six octets.
#[derive(Clone, Copy, Debug, PartialEq, Eq, PartialOrd, Ord, Hash)]
pub struct SystemId(pub [u8; 6]);

/// The address of an attachment to a subnetwork (ISO 10589 8.4.1), in six octets.
#[derive(Clone, Copy, Debug, PartialEq, Eq, PartialOrd, Ord, Hash)]
pub struct Snpa(pub [u8; 6]);

/// A node of the graph: a system, or one of its pseudonodes (ISO 10589 7.2.3). Pseudonode 0 is the system itself.
#[derive(Clone, Copy, Debug, PartialEq, Eq, PartialOrd, Ord, Hash)]
pub struct NodeId {
    pub system: SystemId,
    pub pseudonode: u8,
}

/// The ID of a link state PDU: its node, and the number of its fragment (ISO 10589 9.8).
#[derive(Clone, Copy, Debug, PartialEq, Eq, PartialOrd, Ord, Hash)]
pub struct LspId {
    pub node: NodeId,
    pub number: u8,
}
