//! Scripts of the lab: played, and reported.
//!
//! Lab scripts are played: a network is laid out by the setup lines, and its events come one after another.
//!
//! Keys scripts, of a plain network that passes numbered copies of LSPs' keys, and lab scripts, of whole networks of
//! routers (lab_script, lab_report). The reports are this project's own.
//!
//! - `lay_out.rt`, `router_config.rt`: the network before its events; `event_lines.rt`: the event lines
//! - `run.rt`: the run of a script; `lab_run.rt`: that of a lab script, and `playing.rt` the network at its end; `report.rt`: the report of
//!   a keys script, made as it is written, and `left.rt` what is still to come of it
//! - `fault.rt`: why a script can't be run
//!
//! Choices (own):
//!
//! - `play_script` says why there is no network by `RunFault`, of which it never gives `Write`; `run_script` plays
//!   by it.
#![tactic(auto)]

mod event_lines;
mod fault;
mod lab_run;
mod lay_out;
mod left;
mod playing;
mod report;
mod router_config;
mod run;

/// What other runs of lab scripts are made with.
pub mod parts {
    pub use crate::event_lines::{fault_at, play_line};
    pub use crate::lay_out::lay_out;
}

pub use event_lines::{play, play_machines};
pub use fault::RunFault;
pub use lab_keys::LimitName;
pub use lab_script::{
    CIRCUIT_LIMIT, End, Hex, KeyScope, LabDeed, LabKey, LabLine, LabLink, LabRouter, LabScript,
    Name, Reason, Script, ScriptFault, read_name, read_script,
};
pub use network_lab::Network;
pub use playing::play_script;
pub use run::run_script;
