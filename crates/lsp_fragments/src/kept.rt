//! An own LSP that is issued.
ghost use Rattle.std.specs.Prelude.{◌≡◌, IfOk};

use isis_base::{LspId, Octets, OutOfMemory};

/// An own LSP that is issued: what it says, and the seconds since it was issued.
#[derive(Drop)]
pub(crate) struct Kept {
    pub(crate) id: LspId,
    pub(crate) flags: u8,
    pub(crate) tlvs: Octets,
    pub(crate) age: u64,
}

impl Kept {
    /// An equal one.
    pub(crate) fn copy(&self) -> Result<Kept, OutOfMemory>
        ensures { IfOk result (λ copy. copy ≡ self.now) }
    {
        let tlvs = self.tlvs.copy()?;
        Ok(Kept {
            id: self.id,
            flags: self.flags,
            tlvs,
            age: self.age,
        })
    }
}
