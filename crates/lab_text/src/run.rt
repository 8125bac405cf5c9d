//! The run of a script.
ghost use Rattle.std.specs.Prelude.{◌≡◌, ◌≤◌, ◌<◌, ℕ, List, length, Ok, Err, OnOk, IfOk, IsOk};
ghost use Rattle.std.specs.List.{AllByRecursion};
ghost use Rattle.isis_edge.specs.Faults.{Rose};
ghost use Rattle.lab_keys.specs.KeysNet.{with_link};
ghost use Rattle.lab_script.specs.Gives.{Gives, Answers};
ghost use Rattle.lab_text.specs.KeysRuns.{routers_only, with_links, laid_out, play_line, play_all, end_of, keys_outcome};
ghost use Rattle.lab_script.specs.declared.script.Script.TheVariants.{Keys};
ghost use Rattle.lab_text.specs.Runs.{IsReport, ReportEnds, RunEnds};
ghost use Rattle.lab_text.specs.Claimed.{IsClaimedScript};
ghost use Rattle.lab_text.specs.KeysInNet.{IsInNet, AreInNet, IsLaidOut};

use crate::fault::RunFault;
use crate::lab_run::run_lab;
use crate::left::KeysReport;
use isis_base::OutOfMemory;
use isis_edge::{Sink, TextFailed, write_text};
use lab_keys::{KeyNet, LabFault};
use lab_script::{EventLine, KeyEvent, KeysScript, Reason, Script, ScriptFault};
use std::alloc::Global;

/// Runs a script and writes its whole report. Nothing is written before the run has come to its end.
/// At Ok, of a lab script, the claims held after each of its events, where nothing was injected
/// (ISO 10589 7.3.15.2, 7.3.17):
///
/// - links: each end of a link that is up names the other, and what one end holds the other holds as
///   new or newer, or its SRM flag stands; so in each line `link .. up flags F G ahead P Q` P is at
///   most F and Q at most G;
/// - groups: routers of one group of `agree` hold the same live LSPs;
/// - sweeps: a member of a LAN whose line says `swept yes` holds the same live LSPs as the system that
///   it sees;
/// - contents: what two routers hold live of one LSP ID under one number is the same, unless a line
///   `doubled` names the LSP ID.
///
/// The claims on links and on groups speak of LSP IDs that neither end, or no router of the group, let
/// go; the other two of all.
pub fn run_script<O: Sink>(alloc: Global, script: &Script<'_>, out: &mut O) -> Result<(), RunFault>
    ensures ends { RunEnds script.now (O.put out.old) (O.put out.new) result }
    ensures claimed { OnOk result (IsClaimedScript script.now) }
    ensures cause { result ≡ Err RunFault.Write → Rose (O.faults out.old) (O.faults out.new) }
    ensures later { O.faults out.old ≤ O.faults out.new }
{
    match script {
        Script::Keys(keys) => run_keys(alloc, keys, out),
        Script::Lab(lab) => run_lab(alloc, script, lab, out),
    }
}

/// Runs a keys script and writes its whole report.
fn run_keys<O: Sink>(alloc: Global, script: &KeysScript<'_>, out: &mut O) -> Result<(), RunFault>
    ensures ends { ReportEnds (IsReport (Keys script.now)) (keys_outcome script.now)
        (O.put out.old)
        (O.put out.new) result }
    ensures cause { result ≡ Err RunFault.Write → Rose (O.faults out.old) (O.faults out.new) }
    ensures later { O.faults out.old ≤ O.faults out.new }
{
    let net = match play(alloc, script) {
        Ok(net) => net,
        Err(fault) => return Err(RunFault::from(fault)),
    };
    let mut report = KeysReport::new(script.names(), &net);
    match write_text(alloc, &mut report, out) {
        Ok(()) => Ok(()),
        Err(TextFailed::Write) => Err(RunFault::Write),
        Err(TextFailed::OutOfMemory) => Err(RunFault::OutOfMemory),
    }
}

/// The network at the end of a script.
fn play(alloc: Global, script: &KeysScript<'_>) -> Result<KeyNet, ScriptFault>
    ensures value { Answers result (end_of script.now) }
    ensures named { IfOk result (λ net. length script.now.routers ≤ net.routers) }
{
    let mut net = match lay_out(alloc, script) {
        Ok(net) => net,
        Err(OutOfMemory) => return Err(ScriptFault::OutOfMemory),
    };
    match play_events(&mut net, script.events()) {
        Ok(()) => Ok(net),
        Err(fault) => Err(fault),
    }
}

/// The network of a script before its events.
fn lay_out(alloc: Global, script: &KeysScript<'_>) -> Result<KeyNet, OutOfMemory>
    ensures laid { IfOk result (λ net. net ≡ laid_out script.now) }
    ensures sound { IfOk result (λ net. AreInNet net script.now.events) }
    ensures named { IfOk result (λ net. net.routers ≡ length script.now.routers) }
{
    let mut net = KeyNet::new(alloc);
    add_routers(&mut net, script.names().len())?;
    add_links(&mut net, script.links())?;
    Ok(net)
}

/// Adds so many routers to an empty network.
fn add_routers(net: &mut KeyNet, count: usize) -> Result<(), OutOfMemory>
    requires empty { net.old ≡ routers_only 0 }
    requires few { count ≤ 1024 }
    ensures { OnOk result (net.new ≡ routers_only count) }
{
    for router in 0..count {
        match net.add_router() {
            Ok(_) => {}
            Err(LabFault::OutOfMemory) => return Err(OutOfMemory),
            Err(_) => unreachable!(),
        }
    }
    Ok(())
}

/// Adds links to a network without links.
fn add_links(net: &mut KeyNet, links: &[(usize, usize)]) -> Result<(), OutOfMemory>
    requires first { net.old.links ≡ 0 }
    requires few { length links.now ≤ 4096 }
    requires ends { AllByRecursion (λ link. (link.0 < net.old.routers)
        × (link.1 < net.old.routers)) links.now }
    ensures { OnOk result (net.new ≡ with_links net.old links.now) }
{
    for link in links {
        match add_link(net, *link) {
            Ok(()) => {}
            Err(OutOfMemory) => return Err(OutOfMemory),
        }
    }
    Ok(())
}

/// Adds a link where there is room for one.
fn add_link(net: &mut KeyNet, ends: (usize, usize)) -> Result<(), OutOfMemory>
    requires room { net.old.links < 4096 }
    requires ends { (ends.0 < net.old.routers) × (ends.1 < net.old.routers) }
    ensures { OnOk result (net.new ≡ with_link net.old ends.0 ends.1) }
{
    match net.add_link([ends.0, ends.1]) {
        Ok(()) => Ok(()),
        Err(LabFault::OutOfMemory) => Err(OutOfMemory),
        Err(_) => unreachable!(),
    }
}

/// Plays the events in order, up to the first that is refused.
fn play_events(net: &mut KeyNet, events: &[EventLine]) -> Result<(), ScriptFault>
    requires { AreInNet net.old events.now }
    ensures value { Gives result net.new (play_all net.old events.now) }
    ensures places { OnOk result (IsLaidOut net.old net.new) }
{
    for event in events {
        match play_event(net, event) {
            Ok(()) => {}
            Err(fault) => return Err(fault),
        }
    }
    Ok(())
}

/// One event.
fn play_event(net: &mut KeyNet, event: &EventLine) -> Result<(), ScriptFault>
    requires { IsInNet net.old event.now.event }
    ensures value { Gives result net.new (play_line net.old event.now) }
    ensures memory { result ≡ Err ScriptFault.OutOfMemory → IsOk (play_line net.old event.now) }
    ensures places { OnOk result (IsLaidOut net.old net.new) }
{
    let line = event.line;
    match event.event {
        KeyEvent::Issue { router, id, key } => match net.issue(router, id, key) {
            Ok(_) => Ok(()),
            Err(LabFault::OutOfMemory) => Err(ScriptFault::OutOfMemory),
            Err(_) => unreachable!(),
        },
        KeyEvent::Pass { copy, from, to } => match net.pass(copy, from, to) {
            Ok(()) => Ok(()),
            Err(LabFault::NotSent { .. }) => Err(ScriptFault::Refused {
                line,
                reason: Reason::NotSent,
            }),
            Err(LabFault::OutOfMemory) => Err(ScriptFault::OutOfMemory),
            Err(_) => unreachable!(),
        },
    }
}
