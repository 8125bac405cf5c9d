//! The flags by which LSPs are flooded and acknowledged, beside one level's database (ISO 10589
//! 7.3.15 to 7.3.17).
//!
//! A book has an entry and a row of flags for each LSP ID. The tables for LSPs and for sequence
//! number PDUs are each one function to a row, and one to what the row does; each call is proved
//! equal to model_router's definition, for every LSP ID and circuit. Own: rows of 64-bit words, bit
//! c - 1 for circuit c, and that flags fall at a circuit's closing.
//!
//! - `book.rt`: the book; `flag_row.rt`: a row; `flags.rt`: all rows, and the circuits that may have
//!   flags; `bits.rt`: sets of circuits; `sides.rt`: both sides
//! - `heard.rt`: what is heard and answered; `known.rt`: what the tables ask of what is held
//! - `lsp_rows.rt`, `snp_rows.rt`: which row is met; `hear_lsp.rt`, `hear_entry.rt`: what it does
//! - `range.rt`: what a CSNP misses, and marks; `walks.rt`: what is due and owed; `said.rt`: what
//!   sequence number PDUs say
//! - `readers.rt`: what a router asks of circuits, of room and of rows
//! - `cells.rt`: one LSP ID; `circuits.rt`: one circuit, and seconds; `ages.rt`: what is left
//! - `deed.rt`, `row_edits.rt`: flags changed in place; `headers.rt`: entries kept, and purges
//! - `laws.rt`: the opening of a circuit, by two calls
//!
//! Choices (own):
//!
//! - One row of flags for each entry, so both maps need the same room; `set_open` sets no flag, `mark_all`
//!   does.
//! - Two sets of circuits say which may have SRM or SSN somewhere; so only the first pull after the last
//!   acknowledgement walks the database.
#![tactic(auto)]

mod ages;
mod bits;
mod book;
mod cells;
mod circuits;
mod deed;
mod flag_row;
mod flags;
mod headers;
mod hear_entry;
mod hear_lsp;
mod heard;
mod known;
mod laws;
mod lsp_rows;
mod range;
mod readers;
mod row_edits;
mod said;
mod sides;
mod snp_rows;
mod walks;

pub use book::Book;
pub use flag_row::FlagRow;
pub use heard::{EntryAnswer, LspAnswer, LspHeard};
pub use laws::opening_law;
pub use model_router::Whose;
pub use said::{Keys, SaidOwed};
pub use walks::{Due, Owed};
