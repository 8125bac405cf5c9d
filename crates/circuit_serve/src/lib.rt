//! A router that runs: a worker for each circuit and a ticker, in threads, over one shared router (own).
//!
//! Each worker has a pass of its own, whose label is its circuit's number; the ticker has the first pass, of label 0.
//! So the history of the shared router tells of each entry who made it. What a worker's entries are is said beside what
//! its port tells: the datagrams that it gave and those that it was offered. When all have ended, their passes are
//! joined to one that has seen the whole history.
//!
//! - `serving.rt`: `serve`
//! - `adding.rt`: the jobs of a run; `job.rt`: what a thread works on; `gathering.rt`: the jobs taken apart after they ran
//! - `working.rt`: the worker of a circuit; `ticking.rt`: the ticker; `making.rt`: one event of either
//! - `joining.rt`: passes joined, label by label; `end.rt`: how `serve` ends
//!
//! A daemon is this from its configuration to its end. The ports are opened in order, each at its circuit's place; then the
//! journal is opened, and the router is served until its workers end; then the ports are closed in order. What was written
//! is the journal of one history, which begins at the router's start, and what each port gave and was offered is what the
//! entries of its circuit took and sent.
//!
//! - `daemon.rt`: `run_daemon`; `journal.rt`: the router served behind a journal of text
//! - `ports.rt`: the ports opened and closed; `daemon_end.rt`: how a daemon ends
//!
//! Choices (own):
//!
//! - `serve` takes a pass that has seen nothing; the room for a datagram is taken before the take.
//! - What a daemon did is one record, `DaemonRan`; its router comes to nobody at its end, and is what the journal
//!   replays to.
#![tactic(auto)]

mod adding;
mod daemon;
mod daemon_end;
mod end;
mod gathering;
mod job;
mod joining;
mod journal;
mod making;
mod ports;
mod serving;
mod ticking;
mod working;

pub use daemon::run_daemon;
pub use daemon_end::DaemonEnd;
pub use end::ServeEnd;
pub use serving::serve;
