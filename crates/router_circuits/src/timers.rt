//! The counters of a circuit and level.

/// The seconds until a CSNP set and until PSNPs may be sent (ISO 10589 7.3.15.3, 7.3.15.4), and
/// whether a CSNP set is due on a point-to-point circuit that came up (7.3.17).
#[derive(Clone, Copy, Debug)]
pub struct Timers {
    pub csnp: u8,
    pub psnp: u8,
    pub due: bool,
}
