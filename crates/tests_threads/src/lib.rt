//! Tests of what threads share: the list that contracts alone see, the ticket lock, and the shared router.
//!
//! There is nothing here but tests, so they are proved against the contracts of the crates that they are of.
//!
//! - `notes.rt`: note_list; `turns.rt`: turn_lock; `journals.rt`: circuit_threads
#![tactic(auto)]

#[cfg(test)]
mod journals;
#[cfg(test)]
mod notes;
#[cfg(test)]
mod turns;
