//! What is done to the flags of one circuit.
ghost use Rattle.std.specs.Prelude.{◌<◌};

/// What is done to SRM on a circuit. A flag that is set is due at once; one that waits is due in
/// five seconds.
#[derive(Clone, Copy, Debug, PartialEq, Eq)]
pub(crate) enum SrmDeed {
    Keep,
    Set,
    Clear,
    Wait,
}

/// What is done to SSN on a circuit.
#[derive(Clone, Copy, Debug, PartialEq, Eq)]
pub(crate) enum SsnDeed {
    Keep,
    Set,
    Clear,
}

/// What is done to the flags of one circuit.
#[derive(Drop)]
pub(crate) struct Deed {
    pub(crate) place: u8,
    pub(crate) srm: SrmDeed,
    pub(crate) ssn: SsnDeed,
    pub(crate) ghost fits: { place < 64 },
}
