//! Moves of several parties, woven into one order.
//!
//! Each party has moves in an order of its own, its track. A move may need a letter that another
//! party sent before, and may send letters. A letter is what one party sends for all others to
//! take; it stays there, and each may take it as often as it likes. The tracks are woven in rounds
//! over the parties, in order, each as far as it can, until a round goes nowhere. What is proved:
//! the turns that were made are a front, in which each party makes its moves in order and each
//! letter that is needed was sent before, by another party; and no front at all goes further on any
//! track. So where something is left, no order of all moves is a front. The words are this
//! project's own.
//!
//! For daemons a party is a router, a move an entry of its journal, and a letter stands for octets
//! on a link.
//!
//! Weaving takes memory for the turns, for what is sent, and for each letter.
//!
//! - `moves.rt`: letters as a move sends them, moves, tracks, what was sent, and turns
//! - `posts.rt`: for each letter its first sending, and the first by another party than that
//! - `medium.rt`: what was sent, and the turns so far
//! - `rounds.rt`: the weaving
//! - `letters.rt`: the number of a letter, by its link and octets
//! - `laws.rt`: what holds of rounds and fronts, and of letters' numbers: functions without a body,
//!   whose contracts are the laws
//!
//! Choices (own):
//!
//! - Only what some take needs gets a letter of its own; there is no list of those who wait: each round visits
//!   all routers.
#![tactic(auto)]

pub mod laws;
mod letters;
mod medium;
mod moves;
mod posts;
mod rounds;

pub use letters::LetterBook;
pub use medium::Medium;
pub use moves::{Letters, Move, Sent, Track, Turn};
pub use rounds::weave_tracks;
