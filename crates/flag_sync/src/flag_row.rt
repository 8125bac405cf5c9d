//! The flags of one LSP ID.
ghost use Rattle.std.specs.Prelude.{◌≡◌, [], ◌∷◌};

use isis_base::OutOfMemory;
use lsp_store::TryCopy;

/// The flags of one LSP ID (ISO 10589 7.3.15), bit c - 1 for circuit c: SRM, SSN, and the seconds,
/// 0 to 5, that each set SRM flag still waits, as three bit planes, the lowest one first.
#[derive(Clone, Copy, Debug, PartialEq, Eq)]
pub struct FlagRow {
    pub srm: u64,
    pub ssn: u64,
    pub waits: [u64; 3],
}

impl FlagRow {
    /// SRM on these circuits, due at once, and SSN on those.
    pub(crate) fn new(srm: u64, ssn: u64) -> FlagRow
        ensures { result ≡ record { srm = srm; ssn = ssn; waits = 0 ∷ 0 ∷ 0 ∷ [] } }
    {
        let waits = [0, 0, 0];
        FlagRow { srm, ssn, waits }
    }
}

impl TryCopy for FlagRow {
    fn try_copy(&self) -> Result<FlagRow, OutOfMemory> {
        Ok(*self)
    }
}
