//! An own LSP that is wanted.
use isis_base::{LspId, Octets};

/// One fragment of an own LSP that is wanted (ISO 10589 7.3.6): its LSP ID, and what it says.
#[derive(Drop, Debug)]
pub struct Wanted {
    pub id: LspId,
    pub flags: u8,
    pub tlvs: Octets,
}
