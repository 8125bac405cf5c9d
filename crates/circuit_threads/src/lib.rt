//! The shared router: threads submit events to one router in turns, and each entry of their one
//! history goes to a journal.
//!
//! No standard speaks of it; it is this project's own. The router and its journal lie behind the
//! ticket lock of turn_lock. In a turn the event is done, and its entry appended: its number from
//! 1, the label of the pass, the event and the reply. So for every order in which threads take
//! their turns, their entries stand in one history, whose replay is the router; who closes the
//! shared router gets the router that the replay comes to, and a journal that tells the history.
//! Once an append failed no event is done any more. Datagrams are opened outside the turns, by a
//! desk of their own.
//!
//! Only `SharedRouter::submit` may wait. A turn takes what memory the router's step and the
//! journal's room take; a journal of text takes none.
//!
//! - `shared.rt`: the shared router; `behind.rt`: what lies behind its lock; `taking.rt`: one turn
//! - `entry.rt`: entries, the notes of turns, receipts and faults
//! - `journal.rt`: what takes entries; `text_journal.rt`: a journal of text behind a sink
//! - `line.rt`: a line of text, made page by page; `words.rt`: its words; `page.rt`: a page
//!
//! Choices (own):
//!
//! - `submit` copies the event outside the turn; the count of a journal's faults is compared at the close, and
//!   by `TextJournal::open`.
#![tactic(auto)]

mod behind;
mod entry;
mod journal;
mod line;
mod page;
mod shared;
mod taking;
mod text_journal;
mod words;

pub use behind::{Behind, Start};
pub use entry::{JournalEntry, Note, Receipt, SubmitFault};
pub use journal::{AppendFailed, Journal};
pub use shared::SharedRouter;
pub use text_journal::TextJournal;
pub use turn_lock::{Pass, TurnOut};
