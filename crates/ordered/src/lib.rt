//! Lists in order of a number that each item has, and as maps from it (own).
//!
//! Contracts see such a list by `keyed`, as pairs of a number and an item, of which the model's words on maps speak
//! (model_router). A look-up is a binary search; what is put in or taken out moves the items behind it.
//!
//! - `key.rt`: what has a number
//! - `search.rt`: where the item of a number is
//! - `edits.rt`: how an item is put in and taken out
#![tactic(auto)]

mod edits;
mod key;
mod search;

pub use edits::{insert_at, put_at, take_at, take_out};
pub use key::Keyed;
pub use search::{get, place_of};
