//! Why texts of losses aren't joined.

/// Why a line of texts of losses is refused.
#[derive(Clone, Copy, Debug, PartialEq, Eq)]
pub enum MergeReason {
    /// It isn't the line that must stand there, or it says another K, M or S than the texts before.
    Form,
    /// A text before has the same part.
    Again,
}

/// Why texts of losses aren't joined.
#[derive(Clone, Copy, Debug, PartialEq, Eq)]
pub enum MergeFault {
    /// This line, counted from 1, is refused.
    Refused { line: usize, reason: MergeReason },
    /// They aren't the whole texts of all parts.
    Parts,
    /// There is no memory for it.
    OutOfMemory,
}
