//! The run of a grid's script, and the summary of the network at its end.
ghost use Rattle.std.specs.Prelude.{◌≡◌, ◌≤◌, IfOk, OnOk, IsOkAnd};
ghost use Rattle.lab_script.specs.Scripts.{script_of};
ghost use Rattle.lab_text.specs.LabClaims.{IsClaimedRun};
ghost use Rattle.lab_text.specs.LabRuns.{end_of};
ghost use Rattle.lab_grid.specs.GridText.{grid_text};
ghost use Rattle.lab_grid.specs.GridRuns.{AreTallied, IsSummary, text_end, Sums, GridSums, IsClaimedIn, IsClaimedGrid};

use crate::script::grid_script;
use crate::summary::Summary;
use crate::tally::Tally;
use isis_base::{Level, OutOfMemory};
use lab_script::{LabScript, Reason, Script, ScriptFault, read_script};
use lab_text::{Network, play};
use std::alloc::Global;

/// Runs the script of a grid of `size` rows and as many columns, 1 to 8, and sums up the network at its end. No line
/// of the script is refused; a limit that the run passes is answered. At Ok the claims on links, groups, sweeps and contents held after each of its events, as
/// `lab_text::play` says them (ISO 10589 7.3.17).
pub fn run_grid(alloc: Global, size: u8) -> Result<Summary, ScriptFault>
    requires some { 1 ≤ size }
    requires few { size ≤ 8 }
    ensures summary { GridSums size result }
    ensures claimed { OnOk result (IsClaimedGrid size) }
{
    let text = match grid_script(alloc, size) {
        Ok(text) => text,
        Err(OutOfMemory) => return Err(ScriptFault::OutOfMemory),
    };
    run_text(alloc, size, text.as_slice())
}

/// Runs the script of this text.
fn run_text(alloc: Global, size: u8, text: &[u8]) -> Result<Summary, ScriptFault>
    ensures summary { Sums size (text_end text.now) result }
    ensures claimed { OnOk result (IsOkAnd (script_of text.now) IsClaimedIn) }
{
    match read_script(alloc, text) {
        Ok(Script::Lab(script)) => run_lab(alloc, size, &script),
        Ok(Script::Keys(_)) => Err(ScriptFault::Refused {
            line: 1,
            reason: Reason::Head,
        }),
        Err(fault) => Err(fault),
    }
}

/// Runs a lab script.
fn run_lab(alloc: Global, size: u8, script: &LabScript<'_>) -> Result<Summary, ScriptFault>
    ensures summary { Sums size (end_of script.now) result }
    ensures claimed { OnOk result (IsClaimedRun script.now) }
{
    let net = match play(alloc, script) {
        Ok(net) => net,
        Err(fault) => return Err(fault),
    };
    match summary_of(size, &net) {
        Ok(summary) => Ok(summary),
        Err(OutOfMemory) => Err(ScriptFault::OutOfMemory),
    }
}

/// The summary of a network.
fn summary_of(size: u8, net: &Network) -> Result<Summary, OutOfMemory>
    ensures { IfOk result (λ summary. IsSummary size net.now.seen summary) }
{
    let groups = match net.agreed(Level::One) {
        Ok(groups) => groups,
        Err(OutOfMemory) => return Err(OutOfMemory),
    };
    Ok(Summary {
        size,
        routers: net.routers() as u64,
        links: net.links() as u64,
        groups: groups.len() as u64,
        tally: tally_of(net),
    })
}

/// The numbers of all routes of a network's routers.
fn tally_of(net: &Network) -> Tally
    ensures { AreTallied net.now.seen.routers result }
{
    let mut tally = Tally::new();
    for router in 0..net.routers() {
        tally.add(net.router(router).routes().list());
    }
    tally
}
