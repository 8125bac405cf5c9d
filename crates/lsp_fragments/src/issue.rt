//! What becomes of a wanted fragment.

/// What becomes of a fragment of an own LSP that is wanted (ISO 10589 7.3.6, 7.3.16.1).
#[derive(Clone, Copy, Debug, PartialEq, Eq)]
pub enum Issue {
    /// It is issued at this sequence number.
    Number(u32),
    /// The last sequence number is held, 4,294,967,295: it is purged, and isn't issued until its
    /// header is erased (own).
    Exhausted,
    /// It isn't issued now.
    Wait,
}
