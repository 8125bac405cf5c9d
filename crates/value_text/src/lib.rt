//! What the values of TLVs say, as lines of text.
//!
//! A line for each item of a value that this router reads (ISO 10589 9.5, 9.10, RFC 5305 3 and 4, RFC 5303 3, RFC 1195 5.3). The
//! lines are this project's own.
//!
//! - `values.rt`: the lines of a value, by its code
//! - `items.rt`: the lines of the items of a value, whatever they are
//! - `lines.rt`: the line of each kind of item; `address.rt`: the item of code 132
#![tactic(auto)]

mod address;
mod items;
mod lines;
mod values;

pub use values::add_value;
