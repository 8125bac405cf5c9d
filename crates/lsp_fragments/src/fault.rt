//! Why an LSP isn't split.

/// Why an LSP isn't split.
#[derive(Clone, Copy, Debug, PartialEq, Eq)]
pub enum SplitFault {
    /// 256 fragments don't hold all entries, but the first `fit` of them, the neighbours before the
    /// prefixes (ISO 10589 7.3.4).
    TooMuch { fit: usize },
    /// It wants memory.
    OutOfMemory,
}
