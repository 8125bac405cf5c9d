//! The run of a lab script.
ghost use Rattle.std.specs.Prelude.{◌≡◌, ◌≤◌, ◌++◌, ℕ, List, length, map, Ok, Err, IfOk, OnOk};
ghost use Rattle.isis_edge.specs.Faults.{Rose};
ghost use Rattle.lab_script.specs.declared.script.Script.TheVariants.{Lab};
ghost use Rattle.lab_script.specs.LabScripts.{router_names, link_names};
ghost use Rattle.line_cuts.specs.Words.{texts};
ghost use Rattle.lab_report.specs.ReportLeft.{routes_of, lines_left};
ghost use Rattle.lab_report.specs.Reports.{AreAllRoutes};
ghost use Rattle.lab_text.specs.LabRuns as run;
ghost use Rattle.lab_text.specs.Played.{ends_of};
ghost use Rattle.lab_text.specs.LabClaims.{IsClaimedRun};
ghost use Rattle.lab_text.specs.LabReports.{IsLabReport, lab_outcome, report_by, Tells};
ghost use Rattle.lab_text.specs.Runs.{ReportEnds};

use crate::fault::RunFault;
use crate::playing::play_script;
use isis_base::OutOfMemory;
use isis_edge::{Sink, TextFailed, write_text};
use lab_report::LabReport;
use lab_script::{LabDeed, LabLine, LabScript, Script};
use network_lab::Network;
use std::alloc::Global;

/// Plays a lab script and writes its whole report.
pub(crate) fn run_lab<O: Sink>(
    alloc: Global,
    script: &Script<'_>,
    lab: &LabScript<'_>,
    out: &mut O,
) -> Result<(), RunFault>
    requires same { script.now ≡ Lab lab.now }
    ensures ends { ReportEnds (IsLabReport lab.now) (lab_outcome lab.now) (O.put out.old)
        (O.put out.new) result }
    ensures claimed { OnOk result (IsClaimedRun lab.now) }
    ensures cause { result ≡ Err RunFault.Write → Rose (O.faults out.old) (O.faults out.new) }
    ensures later { O.faults out.old ≤ O.faults out.new }
{
    let net = match play_lab(alloc, script, lab) {
        Ok(net) => net,
        Err(fault) => return Err(fault),
    };
    let dumps = match dumps_of(alloc, lab) {
        Ok(dumps) => dumps,
        Err(OutOfMemory) => {
            drop(net);
            return Err(RunFault::OutOfMemory);
        }
    };
    let end = write_report(alloc, &net, lab, &dumps, out);
    drop(net);
    end
}

/// Writes the report of the network at the end of a lab script.
fn write_report<O: Sink>(
    alloc: Global,
    net: &Network,
    lab: &LabScript<'_>,
    dumps: &[usize],
    out: &mut O,
) -> Result<(), RunFault>
    requires tells { Tells lab.now (Ok net.now) }
    requires routers { length net.now.seen.routers ≡ length lab.now.routers }
    requires links { net.now.seen.links ≡ map ends_of lab.now.links }
    requires dumps { dumps.now ≡ run.dumps_of lab.now.lines }
    ensures ends { ReportEnds (IsLabReport lab.now) (lab_outcome lab.now) (O.put out.old)
        (O.put out.new) result }
    ensures cause { result ≡ Err RunFault.Write → Rose (O.faults out.old) (O.faults out.new) }
    ensures later { O.faults out.old ≤ O.faults out.new }
{
    let mut report = match begin(alloc, net, lab, dumps) {
        Ok(report) => report,
        Err(OutOfMemory) => return Err(RunFault::OutOfMemory),
    };
    match write_text(alloc, &mut report, out) {
        Ok(()) => Ok(()),
        Err(TextFailed::Write) => Err(RunFault::Write),
        Err(TextFailed::OutOfMemory) => Err(RunFault::OutOfMemory),
    }
}

/// The network at the end of a lab script, said of what the script's lines say.
fn play_lab(alloc: Global, script: &Script<'_>, lab: &LabScript<'_>) -> Result<Network, RunFault>
    requires same { script.now ≡ Lab lab.now }
    ensures tells { Tells lab.now result }
    ensures claimed { OnOk result (IsClaimedRun lab.now) }
    ensures routers { IfOk result (λ net.
        length net.seen.routers ≡ length lab.now.routers) }
    ensures links { IfOk result (λ net. net.seen.links ≡ map ends_of lab.now.links) }
{
    play_script(alloc, script)
}

/// The report of a network that a script laid out, of which nothing is written yet.
#[tactic(auto, unfolding(crate::specs::LabReports::report_by))]
fn begin<'n>(
    alloc: Global,
    net: &'n Network,
    script: &'n LabScript<'_>,
    dumps: &'n [usize],
) -> Result<LabReport<'n, 'n>, OutOfMemory>
    requires routers { length net.now.seen.routers ≡ length script.now.routers }
    requires links { net.now.seen.links ≡ map ends_of script.now.links }
    requires dumps { dumps.now ≡ run.dumps_of script.now.lines }
    ensures text { IfOk result (λ report. lines_left report
        ≡ report_by script.now (routes_of report.routes.items) net.now.seen) }
    ensures routes { IfOk result (λ report.
        AreAllRoutes net.now.seen.routers (routes_of report.routes.items)) }
{
    LabReport::new(
        alloc,
        net,
        router_names_of(script),
        link_names_of(script),
        dumps,
    )
}

/// The routers' names.
fn router_names_of<'s, 'a>(script: &'s LabScript<'a>) -> &'s [&'a str]
    ensures names { texts result.now ≡ router_names script.now.routers }
    ensures count { length result.now ≡ length script.now.routers }
    ensures few { length result.now ≤ 1024 }
{
    let _routers = script.routers();
    script.names()
}

/// The links' names.
fn link_names_of<'s, 'a>(script: &'s LabScript<'a>) -> &'s [&'a str]
    ensures names { texts result.now ≡ link_names script.now.links }
    ensures count { length result.now ≡ length script.now.links }
    ensures few { length result.now ≤ 4096 }
{
    let _links = script.links();
    script.link_names()
}

/// The numbers of the datagrams that a script's lines tell, in order.
fn dumps_of(alloc: Global, script: &LabScript<'_>) -> Result<Vec<usize>, OutOfMemory>
    ensures { IfOk result (λ dumps. dumps.items ≡ run.dumps_of script.now.lines) }
{
    let mut dumps = Vec::new(alloc);
    let lines = script.lines();
    for line in lines {
        match add_dump(&mut dumps, line) {
            Ok(()) => {}
            Err(OutOfMemory) => return Err(OutOfMemory),
        }
    }
    Ok(dumps)
}

/// Adds the number of the datagram that a line tells, if any.
fn add_dump(dumps: &mut Vec<usize>, line: &LabLine<'_>) -> Result<(), OutOfMemory>
    ensures { OnOk result ((behind : List ℕ) → dumps.new.items ++ behind
        ≡ dumps.old.items ++ run.told_by line.now.deed behind) }
{
    if let LabDeed::Dump { datagram } = &line.deed {
        dumps.push(*datagram)?;
    }
    Ok(())
}
