//! The program `isis`.
//!
//! `isis lab` reads a script from standard input and writes its report to standard output. `isis show` reads lines of
//! hex text, each one PDU, and writes their fields. `isis grid N`, with N from 1 to 8, runs a grid of N rows and as many
//! columns of routers, and writes a summary. `isis walk NAME PREFIX` reads a script as `lab` does, and writes the walk of a
//! packet from a router to a prefix. `isis trace NAME ADDRESS` reads a script too, and writes what becomes of a packet from a
//! router to an address. `isis weave` reads the setup lines of a script and journals of daemons, weaves the journals into one
//! schedule, and writes it as a script. `isis losses K` reads a script, and writes the worst that K lost deliveries of its last line
//! do. `isis routes`, `routes6` and `alternates`, with a level and a system, read captured LSPs, and write the system's IPv4 routes,
//! its IPv6 routes or its loop-free alternates. Where the exit code isn't 0 the status's line stands on standard error, and where
//! captured LSPs lack the system that is asked for. `isis daemon --boot N --turns N` reads a configuration from standard input, opens a UDP port for each of its
//! circuits, runs its router, and writes the router's journal.
//!
//! - `run.rt`: the call `run`, from the octets read to the octets written; `inputs.rt`: that of all but a daemon
//! - `texts.rt`: what makes a text of its input
//! - `command.rt`, `options.rt`: what the words ask for; `status.rt`: how a run ends
//! - `grid.rt`: the run of a grid; `walk.rt`, `trace.rt`: a walk and a trace after a script; `weaving.rt`: journals woven; `daemon.rt`: a
//!   router over its circuits' ports
//! - `show.rt`: the call `show`, line by line; `show/lines.rt` the lines of a PDU, and `shown.rt` what is still to come
//!
//! Choices (own):
//!
//! - Options are read by the program's own test of the words, without the kit's `clap`: a second reader would
//!   have to equal the first.
//! - `show` reads hex by the kit's `hex` alone; `bad` for checksum 0 at a lifetime above 0; one PDU's lines are
//!   made before they are written.
#![tactic(auto)]

mod command;
mod daemon;
mod grid;
mod inputs;
mod options;
mod run;
mod show;
mod shown;
mod state;
mod status;
#[cfg(test)]
mod tests;
mod texts;
mod trace;
mod walk;
mod weaving;

use crate::run::run;
use crate::status::Status;
use daemon_edge::{FirstSecond, PromptPacer, ThreadSpawner, UdpPorts};
use isis_edge::{StdSink, StdSource};
use std::process::ExitCode;
use std::{env, io};

/// The words after the program's name.
fn words(rt: &HostRuntime) -> Result<Vec<String>, Status> {
    match env::args(rt) {
        Ok(words) => match words.skip(1).collect(rt.alloc()) {
            Ok(words) => Ok(words),
            Err(_) => Err(Status::OutOfMemory),
        },
        Err(error) if error.kind() == io::ErrorKind::InvalidData => Err(Status::Usage),
        Err(_) => Err(Status::OutOfMemory),
    }
}

fn main(rt: HostRuntime) -> ExitCode {
    let status = match words(&rt) {
        Ok(words) => {
            let mut input = StdSource::new(rt.stdin());
            let output = StdSink::new(rt.stdout());
            let mut ports = UdpPorts::new();
            let mut spawner = ThreadSpawner::new(Vec::new(rt.alloc()));
            let gate = FirstSecond::new();
            run(
                &rt,
                rt.alloc(),
                words.as_slice(),
                &mut input,
                output,
                &mut ports,
                &mut spawner,
                PromptPacer::new(&gate),
                &gate,
            )
            .2
        }
        Err(status) => status,
    };
    if status != Status::Done {
        // Where standard error can't be written, the exit code still tells.
        let _ = rt.eprintln(status);
    }
    ExitCode::from(status.code())
}
