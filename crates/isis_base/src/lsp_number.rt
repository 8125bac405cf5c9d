//! LSP IDs as octets and as numbers.
ghost use Rattle.std.specs.Prelude.{◌≡◌, ◌<◌};
ghost use Rattle.std.specs.List.{AllByRecursion};
ghost use Rattle.isis_base.specs.Identifiers.{lsp_octets, lsp_from, lsp_number};

use crate::identifiers::{LspId, NodeId, SystemId};

/// The LSP ID of eight octets.
pub fn lsp_of(octets: [u8; 8]) -> LspId
    ensures octets { lsp_octets result ≡ octets }
    ensures value { result ≡ lsp_from octets }
{
    let [a, b, c, d, e, f, pseudonode, number] = octets;
    let system = SystemId([a, b, c, d, e, f]);
    let node = NodeId { system, pseudonode };
    LspId { node, number }
}

/// The six octets of a system ID.
pub fn octets_of_system(system: SystemId) -> [u8; 6]
    ensures value { result ≡ system.0 }
    ensures small { AllByRecursion (λ octet. octet < 256) result }
{
    let [a, b, c, d, e, f] = system.0;
    [a, b, c, d, e, f]
}

/// The eight octets of an LSP ID.
pub fn octets_of_lsp(id: LspId) -> [u8; 8]
    ensures value { result ≡ lsp_octets id }
    ensures small { AllByRecursion (λ octet. octet < 256) result }
{
    let NodeId { system, pseudonode } = id.node;
    let [a, b, c, d, e, f] = system.0;
    [a, b, c, d, e, f, pseudonode, id.number]
}

impl LspId {
    /// The eight octets as a big-endian number.
    #[tactic(auto, unfolding(crate::specs::Identifiers::lsp_number))]
    pub fn to_number(self) -> u64
        ensures { result ≡ lsp_number self }
    {
        u64::from_be_bytes(octets_of_lsp(self))
    }

    /// The LSP ID of a number.
    pub fn from_number(n: u64) -> LspId
        ensures { lsp_number result ≡ n }
    {
        lsp_of(n.to_be_bytes())
    }
}
