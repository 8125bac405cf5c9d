//! What sequence number PDUs say of one level's database (ISO 10589 7.3.15.3, 7.3.15.4).
//!
//! A CSNP set covers all LSP IDs once, in order, in pieces of 75 entries at most; PSNPs list what is
//! owed on a circuit, 75 to a PDU (own). The pieces of a CSNP set are lent one after another, without
//! memory: a piece's keys are passed for its end, and walked over again as its entries. The lists hold
//! the memory of what they list.
//!
//! - `pieces.rt`: the CSNP set piece by piece; `piece_walk.rt`: a piece, and its entries
//! - `csnp.rt`: the CSNP set as a list; `psnp.rt`: what PSNPs list
//! - `sweep.rt`: which LSP IDs the ranges of CSNPs cover; `ranges.rt`: ranges in order
//!
//! Choices (own):
//!
//! - A range whose end is before its start covers nothing, and its flag counts; `csnp_pieces` borrows a CSNP
//!   set piece by piece.
#![tactic(auto)]

mod csnp;
mod piece_walk;
mod pieces;
mod psnp;
mod ranges;
mod sweep;

pub use csnp::{Entries, Piece, csnp_set};
pub use piece_walk::{EntryWalk, PieceWalk};
pub use pieces::{CsnpPieces, csnp_pieces};
pub use psnp::psnp_lists;
pub use sweep::{Sweep, Swept};
