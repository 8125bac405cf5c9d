//! The lines of a source, one after another, as they are read.
//!
//! Memory is that of one line and of a read, however much the source gives. It is this project's own. A line ends at LF and may
//! have 16,777,216 octets. What stands behind the last LF is handed out as the rest: whoever writes the source may not have ended
//! it yet.
//!
//! - `lines.rt`: the reader; `fault.rt`: why no line was read
//! - `laws.rt`: lines so far, and those of octets that are read next: functions without a body, whose contracts are the laws
#![tactic(auto)]

mod fault;
pub mod laws;
mod lines;

pub use fault::LineFault;
pub use lines::{LINE_LIMIT, LineRead, LineReader};
