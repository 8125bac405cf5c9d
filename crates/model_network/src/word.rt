//! The kinds of PDUs that a line `run` may leave undelivered.

/// A kind of PDU: hellos, LSPs, CSNPs or PSNPs, of whichever level (ISO 10589 9.5 to 9.13).
#[derive(Clone, Copy, Debug, PartialEq, Eq)]
pub enum PduWord {
    Hello,
    Lsp,
    Csnp,
    Psnp,
}
