//! What texts say, and the keys in hex.
ghost use Rattle.std.specs.Prelude.{◌≡◌, ◌⊎◌, ℕ, List, Option, IfOk, IfErr, Some, None};
ghost use Rattle.daemon_config.specs.Fields.{key_of, circuit_kind_of};

use crate::numbers::{read_address, read_host};
use daemon_edge::Address;
use hex::FromHexError;
use isis_base::{
    AreaAddress, CircuitKind, LevelSet, Octets, OutOfMemory, Prefix, SystemId, read_area,
    read_levels, read_prefix, read_system,
};
use std::alloc::Global;

/// What a text may say.
pub(crate) trait FromText: Sized {
    ghost says: { List ℕ → Option Self };

    /// What a text says; none where it says none.
    fn from_text(text: &str) -> Option<Self>
        ensures { result ≡ says text.now };
}

impl FromText for SystemId {
    ghost use Rattle.daemon_config.specs.Fields.{system_of};

    ghost says = { system_of };

    #[tactic(auto, unfolding(crate::specs::Fields::system_of))]
    fn from_text(text: &str) -> Option<SystemId> {
        read_system(text).ok()
    }
}

impl FromText for AreaAddress {
    ghost use Rattle.isis_base.specs.AreaTexts.{area_of};

    ghost says = { area_of };

    fn from_text(text: &str) -> Option<AreaAddress> {
        read_area(text).ok()
    }
}

impl FromText for LevelSet {
    ghost use Rattle.isis_base.specs.Levels.{levels_of};

    ghost says = { levels_of };

    fn from_text(text: &str) -> Option<LevelSet> {
        read_levels(text).ok()
    }
}

impl FromText for Prefix {
    ghost use Rattle.daemon_config.specs.Fields.{prefix_of};

    ghost says = { prefix_of };

    fn from_text(text: &str) -> Option<Prefix> {
        read_prefix(text).ok()
    }
}

impl FromText for CircuitKind {
    ghost use Rattle.daemon_config.specs.Fields.{circuit_kind_of};

    ghost says = { circuit_kind_of };

    fn from_text(text: &str) -> Option<CircuitKind> {
        read_circuit_kind(text.as_bytes())
    }
}

/// An IPv4 address, its first octet the greatest.
impl FromText for u32 {
    ghost use Rattle.daemon_config.specs.Fields.{host_of};

    ghost says = { host_of };

    fn from_text(text: &str) -> Option<u32> {
        read_host(text.as_bytes())
    }
}

impl FromText for Address {
    ghost use Rattle.daemon_config.specs.Fields.{address_of};

    ghost says = { address_of };

    fn from_text(text: &str) -> Option<Address> {
        read_address(text.as_bytes())
    }
}

/// A circuit's kind is `p2p` or `lan`.
#[tactic(auto, unfolding(crate::specs::Fields::circuit_kind_of))]
fn read_circuit_kind(text: &[u8]) -> Option<CircuitKind>
    ensures { result ≡ circuit_kind_of text.now }
{
    if text == b"p2p".as_slice() {
        return Some(CircuitKind::PointToPoint);
    }
    if text == b"lan".as_slice() {
        return Some(CircuitKind::Lan);
    }
    None
}

/// Reads the octets of a key, 1 to 128 in hex digits. `None` where the text is none.
#[tactic(auto, unfolding(crate::specs::Fields::key_of))]
pub(crate) fn read_key(alloc: Global, text: &str) -> Result<Option<Octets>, OutOfMemory>
    ensures { IfOk result (λ key. key ≡ key_of text.now) }
{
    let bytes = match hex::decode(alloc, text) {
        Ok(bytes) => bytes,
        Err(FromHexError::OutOfMemory) => return Err(OutOfMemory),
        Err(_) => return Ok(None),
    };
    if bytes.is_empty() || bytes.len() > 128 {
        return Ok(None);
    }
    let mut octets = Octets::new(alloc);
    octets.extend(bytes.as_slice())?;
    Ok(Some(octets))
}
