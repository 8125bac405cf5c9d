//! Tests of weaving: what no clause says, that journals are read and tracks woven where there is memory.
//!
//! There is nothing here but tests, so they are proved against the contracts of the crates that they
//! are of.
//!
//! - `journals`: a journal, read; `tracks`: tracks woven in rounds; `letters`: numbers of letters
#![tactic(auto)]

#[cfg(test)]
mod journals;
#[cfg(test)]
mod letters;
#[cfg(test)]
mod tracks;
