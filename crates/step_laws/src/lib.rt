//! The laws of one step, exactly: what the laws of model_router and model_network say more weakly, or leave out.
//!
//! Definitions and laws alone; each law is a function without a body, whose contract holds for whatever is given, every
//! state and every event.
//!
//! - `falls.rt`: where the rank of a key falls
//! - `origins.rt`: where a new live LSP comes from
//! - `flags.rt`: SRM and SSN stand on open circuits alone, and what waits is flagged
//! - `listings.rt`: the CSNPs in a reply list exactly the keys in their ranges
//! - `readings.rt`: that a CSNP is taken without a flag is one thing, read entry after entry or of the database before it
//!
//! Choices (own):
//!
//! - The exact laws are a crate of their own: a sharper law has nothing proved again that doesn't need it.
#![tactic(auto)]

pub mod falls;
pub mod flags;
pub mod listings;
pub mod origins;
pub mod readings;
