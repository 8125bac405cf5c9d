//! The outside as the layers above see it: what octets are read from and written to.
//!
//! A source tells, for contracts alone, the octets that it gave and whether it is at its end, a sink the octets put into
//! it, and both a count of faults, which never falls. So a fault is answered only where a count rose. This is the project's
//! own; no standard speaks of it.
//!
//! - `source.rt`, `sink.rt`: the traits
//! - `reading.rt`, `writing.rt`: a whole input read, a whole piece written
//! - `text.rt`: texts that are made as they are written, and the one writer of them all
//! - `memory_source.rt`, `memory_sink.rt`: their forms in memory; `calls.rt`: which calls of these fail
//! - `standard.rt`: the thin adapters over readers and writers of the system
//!
//! `wrap` and `unwrap`, the datagrams that PDUs are sent in, are isis_pdu's and passed on.
//!
//! Choices (own):
//!
//! - `read_whole` takes at most one octet more than its limit, by a buffer of 65,536 octets on the heap;
//!   `Calls` is public for daemon_edge.
#![tactic(auto)]

mod calls;
mod memory_sink;
mod memory_source;
mod reading;
mod sink;
mod source;
mod standard;
mod text;
mod writing;

pub use calls::Calls;
pub use isis_pdu::{FrameFault, unwrap, wrap};
pub use memory_sink::MemorySink;
pub use memory_source::MemorySource;
pub use reading::{WholeFault, read_whole};
pub use sink::{Put, Sink};
pub use source::{Got, Source};
pub use standard::{StdSink, StdSource};
pub use text::{Text, TextFailed, write_text};
pub use writing::{WriteFailed, write_all};
