//! What lines come to.

use ipv6_reach::Capture;

/// What the lines of an input come to: the LSPs that were kept, and how many lines were kept and how many
/// skipped. An empty line is neither (own).
#[derive(Drop)]
pub struct Read {
    pub capture: Capture,
    pub kept: usize,
    pub skipped: usize,
}
