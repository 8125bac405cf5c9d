//! What a look at the least offer did.

/// What was done with the least offer.
pub enum Outcome {
    End,
    Skipped,
    Settled(u64, u64),
}
