//! Texts cut at marks: the lines of a text, the words of a line; and what words say.
//!
//! It is this project's own. All that the program reads line by line is cut by one call, and all its
//! decimal numbers are read by another. A line of several kinds of words is read by a form, which
//! takes its words one after another.
//!
//! - `cuts.rt`: a text up to a mark, and what stands behind it
//! - `words.rt`: the words of a line, one after another
//! - `numerals.rt`: decimal numbers without sign or leading zero
//! - `hexes.rt`: octets in hex; `fields.rt`: bounded numbers, prefixes, `on` and `off`
//!
//! Choices (own):
//!
//! - Lines and words are cut by the kit's `memchr` in one public call, for scripts and for `show`; decimal
//!   numbers are read by another.
#![tactic(auto)]

mod cuts;
mod fields;
mod hexes;
mod numerals;
mod words;

pub use cuts::cut;
pub use fields::{read_on, read_prefix_word, read_up_to};
pub use hexes::{Hex, all_hex, read_octets, reads_octets};
pub use numerals::read_number;
pub use words::Words;
