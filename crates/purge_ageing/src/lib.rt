//! Lifetimes of one level's entries (ISO 10589 7.3.16.3, 7.3.16.4), and the LSP IDs that are let
//! go.
//!
//! Own: empty entries last 60 seconds too; the LSP IDs whose purge was erased are recorded, and from
//! the 4,097th different one on every LSP ID counts as recorded.
//!
//! A second takes no memory. It walks the database once, and lowers in place what each entry has
//! left. Where an entry is over then, it goes on from the first such one to the next; each costs a
//! few binary searches more.
//!
//! - `second.rt`: a second of a level's entries; `let_go.rt`: the LSP IDs that are let go
//! - `ids.rt`: LSP IDs in a sorted list
//!
//! Choices (own):
//!
//! - A second is one walk, which lowers all in place and answers the first that is over; all are lowered before
//!   one ends.
#![tactic(auto)]

pub mod ids;
mod let_go;
mod second;

pub use let_go::LetGo;
pub use second::age;
