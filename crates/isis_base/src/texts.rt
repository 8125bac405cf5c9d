//! System IDs and LSP IDs read from their texts.
ghost use Rattle.std.specs.Prelude.{◌≡◌, ℕ, List, Ok, IfOk, IfErr};
ghost use Rattle.std.specs.Option.{option_map};
ghost use Rattle.std.specs.Result.{result_ok};
ghost use Rattle.isis_base.specs.Misfit.{text_octets};
ghost use Rattle.isis_base.specs.Identifiers.{lsp_octets, lsp_from, system_from};
ghost use Rattle.isis_base.specs.Texts.{Spells, IsFaultAt, HasForm};

use crate::identifiers::{LspId, SystemId};
use crate::lsp_number::lsp_of;
use crate::parts::{Part, read_parts};
use std::error::Error;
use std::fmt;

/// The text is none of those that are read. `place` is the length in octets of its longest prefix that some
/// such text begins with.
#[derive(Clone, Copy, Debug, PartialEq, Eq)]
pub struct TextFault {
    pub place: usize,
}

impl fmt::Display for TextFault {
    ghost use Rattle.std.specs.Prelude.{◌++◌, Some, codes, decimal};

    ghost output = { λ fault. Some (codes "misspelt at octet " ++ decimal fault.place) };

    fn fmt<W: fmt::Write>(&self, f: &mut fmt::Formatter<W>) -> fmt::Result {
        let place = self.place;
        write!(f, "misspelt at octet {place}")
    }
}

impl Error for TextFault {}

/// The form of a system ID, as `0000.0000.0001`.
pub const SYSTEM_TEXT: [Part; 8] = [
    Part::Octet,
    Part::Octet,
    Part::Mark(b'.'),
    Part::Octet,
    Part::Octet,
    Part::Mark(b'.'),
    Part::Octet,
    Part::Octet,
];

/// The form of a node ID, as `0000.0000.0001.00`.
pub const NODE_TEXT: [Part; 10] = [
    Part::Octet,
    Part::Octet,
    Part::Mark(b'.'),
    Part::Octet,
    Part::Octet,
    Part::Mark(b'.'),
    Part::Octet,
    Part::Octet,
    Part::Mark(b'.'),
    Part::Octet,
];

/// The form of an LSP ID, as `0000.0000.0001.00-00`.
pub const LSP_TEXT: [Part; 12] = [
    Part::Octet,
    Part::Octet,
    Part::Mark(b'.'),
    Part::Octet,
    Part::Octet,
    Part::Mark(b'.'),
    Part::Octet,
    Part::Octet,
    Part::Mark(b'.'),
    Part::Octet,
    Part::Mark(b'-'),
    Part::Octet,
];

/// Reads a system ID, as `0000.0000.0001`.
#[tactic(auto, unfolding(crate::specs::Misfit::text_octets))]
pub fn read_system(text: &str) -> Result<SystemId, TextFault>
    ensures ok { IfOk result (λ system. Spells SYSTEM_TEXT text.now system.0) }
    ensures read { (octets : List ℕ) → Spells SYSTEM_TEXT text.now octets
        → result ≡ Ok (system_from octets) }
    ensures value { result_ok result ≡ option_map system_from (text_octets SYSTEM_TEXT text.now) }
    ensures err { IfErr result (λ fault. IsFaultAt (HasForm SYSTEM_TEXT) text.now fault.place) }
{
    let mut octets = [0u8; 6];
    match read_parts(&mut octets, text.as_bytes(), &SYSTEM_TEXT) {
        Some(place) => Err(TextFault { place }),
        None => Ok(SystemId(octets)),
    }
}

/// Reads an LSP ID, as `0000.0000.0001.00-00`.
#[tactic(auto, unfolding(crate::specs::Misfit::text_octets))]
pub fn read_lsp_id(text: &str) -> Result<LspId, TextFault>
    ensures ok { IfOk result (λ id. Spells LSP_TEXT text.now (lsp_octets id)) }
    ensures read { (octets : List ℕ) → Spells LSP_TEXT text.now octets
        → result ≡ Ok (lsp_from octets) }
    ensures value { result_ok result ≡ option_map lsp_from (text_octets LSP_TEXT text.now) }
    ensures err { IfErr result (λ fault. IsFaultAt (HasForm LSP_TEXT) text.now fault.place) }
{
    let mut octets = [0u8; 8];
    match read_parts(&mut octets, text.as_bytes(), &LSP_TEXT) {
        Some(place) => Err(TextFault { place }),
        None => Ok(lsp_of(octets)),
    }
}
