//! Contents of LSPs that are kept.
ghost use Rattle.std.specs.Prelude.{◌≡◌, drop, IfOk, MatchOption, None, Some, if◌then◌else◌};
ghost use Rattle.isis_base.specs.Keys.{rank};
ghost use Rattle.model_router.specs.Ranks.{is_live, number_of};
ghost use Rattle.model_router.specs.OwnLsps.{same_contents};
ghost use Rattle.lab_facts.specs.Entries.{contents_of};

use isis_base::fields::behind_header;
use isis_base::{Key, Octets, OutOfMemory};
use std::alloc::Global;

/// What an LSP says behind its header: the flags octet and the TLVs (ISO 10589 9.8).
#[derive(Drop, Debug)]
pub(crate) struct Said {
    pub(crate) flags: u8,
    pub(crate) tlvs: Octets,
}

impl Said {
    /// A copy of contents.
    pub(crate) fn new(alloc: Global, flags: u8, tlvs: &[u8]) -> Result<Said, OutOfMemory>
        ensures { IfOk result
            (λ said. contents_of said ≡ record { flags = flags; tlvs = tlvs.now }) }
    {
        let mut octets = Octets::new(alloc);
        octets.extend(tlvs)?;
        Ok(Said {
            flags,
            tlvs: octets,
        })
    }

    /// Whether contents are these.
    pub(crate) fn is(&self, flags: u8, tlvs: &[u8]) -> bool
        ensures { result
            ≡ same_contents (contents_of self.now) (record { flags = flags; tlvs = tlvs.now }) }
    {
        self.flags == flags && self.tlvs.as_slice() == tlvs
    }
}

/// The TLVs of an LSP.
pub(crate) fn tlvs_of(octets: &Octets) -> &[u8]
    ensures { result.now ≡ drop 27 octets.now }
{
    behind_header(octets.as_slice())
}

/// The number of a live LSP of a key.
pub(crate) fn live_number(key: Option<Key>) -> Option<u32>
    ensures { result ≡ (if is_live (rank key) then Some (number_of (rank key)) else None) }
{
    match key {
        Some(key) => number_unless(key),
        None => None,
    }
}

/// The number of a key that isn't purged.
fn number_unless(key: Key) -> Option<u32>
    ensures { result
        ≡ (if is_live (rank (Some key)) then Some (number_of (rank (Some key))) else None) }
{
    if key.purged {
        return None;
    }
    Some(key.number)
}
