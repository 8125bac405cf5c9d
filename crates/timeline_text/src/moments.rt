//! The moments of a script, one after another.
ghost use Rattle.std.specs.Prelude.{◌≡◌, ◌≤◌, ◌<◌, ◌++◌, length, Some, None, IfOk, IfErr, IfSome, OnOk};
ghost use Rattle.model_network.specs.Networks.{Network as ModelNetwork};
ghost use Rattle.network_lab.specs.LabNets.{StandsFor};
ghost use Rattle.lab_script.specs.LabSound.{IsDeed};
ghost use Rattle.lab_script.specs.declared.deeds.LabDeed.TheVariants as deed;
ghost use Rattle.lab_script.specs.declared.reason.ScriptFault.TheVariants as refused;
ghost use Rattle.lab_text.specs.Layouts.{laid_out, opened};
ghost use Rattle.lab_text.specs.Played.{IsLaid};
ghost use Rattle.timeline_text.specs.declared.tally.Tally.{Tally as TallyOf};
ghost use Rattle.timeline_text.specs.Tallies.{IsTallyOf};
ghost use Rattle.timeline_text.specs.Pages as pages;
ghost use Rattle.timeline_text.specs.TimelineText.{sum_words};
ghost use Rattle.timeline_text.specs.Playing as play;
ghost use Rattle.timeline_text.specs.Timelines.{Times};

use crate::lines::Page;
use crate::tally::tally_of;
use isis_base::{Octets, OutOfMemory};
use lab_text::parts::{fault_at, lay_out, play_line};
use lab_text::{LabDeed, LabLine, LabScript, Network, ScriptFault};
use network_lab::PduWord;
use std::alloc::Global;

/// What a line `run` says.
#[derive(Clone, Copy)]
pub(crate) struct RunLine {
    pub(crate) seconds: u32,
    pub(crate) without: Option<PduWord>,
    pub(crate) except: Option<usize>,
}

/// The text of the moments of a lab script, or the first line that is refused, or which passes a limit.
pub(crate) fn timeline_of(
    alloc: Global,
    script: &LabScript<'_>,
    address: u32,
) -> Result<Octets, ScriptFault>
    ensures { Times script.now address result }
{
    let mut net = match laid(alloc, script) {
        Ok(net) => net,
        Err(OutOfMemory) => return Err(ScriptFault::OutOfMemory),
    };
    let played = play_all(alloc, &mut net, script, address);
    drop(net);
    match played {
        Ok(page) => finish(page),
        Err(fault) => Err(fault),
    }
}

/// The network before the script's events, whose routers keep their routes.
fn laid(alloc: Global, script: &LabScript<'_>) -> Result<Network, OutOfMemory>
    ensures is { IfOk result (λ net. IsLaid (length script.now.routers) script.now.links net.seen) }
    ensures stands { IfOk result (λ net. StandsFor (opened (laid_out script.now)) net) }
    ensures goes_on { IfOk result (λ net. net.stopped ≡ None) }
{
    match lay_out(alloc, script) {
        Ok(net) => net.with_routes(),
        Err(error) => Err(error),
    }
}

/// The page with the moments of all event lines, up to the first that is refused.
fn play_all(
    alloc: Global,
    net: &mut Network,
    script: &LabScript<'_>,
    address: u32,
) -> Result<Page, ScriptFault>
    requires goes_on { net.old.stopped ≡ None }
    requires laid { IsLaid (length script.now.routers) script.now.links net.old.seen }
    ensures { (m : ModelNetwork) → StandsFor m net.old
        → play.PageEnds address script.now.lines m result }
{
    let mut page = match Page::new(alloc) {
        Ok(page) => page,
        Err(OutOfMemory) => return Err(ScriptFault::OutOfMemory),
    };
    match play_lines(alloc, net, script, address, &mut page) {
        Ok(()) => Ok(page),
        Err(fault) => Err(fault),
    }
}

/// The whole text of a page.
fn finish(page: Page) -> Result<Octets, ScriptFault>
    ensures text { IfOk result (λ text. text ≡ page.text ++ sum_words page.seconds page.sums) }
    ensures cause { IfErr result (λ fault. fault ≡ refused.OutOfMemory) }
{
    match page.finish() {
        Ok(text) => Ok(text),
        Err(OutOfMemory) => Err(ScriptFault::OutOfMemory),
    }
}

/// Plays the event lines in order, up to the first that is refused, and adds their moments.
fn play_lines(
    alloc: Global,
    net: &mut Network,
    script: &LabScript<'_>,
    address: u32,
    page: &mut Page,
) -> Result<(), ScriptFault>
    requires goes_on { net.old.stopped ≡ None }
    requires laid { IsLaid (length script.now.routers) script.now.links net.old.seen }
    ensures { (m : ModelNetwork) → StandsFor m net.old
        → play.LinesEnd address script.now.lines m page.old page.new result }
{
    let lines = script.lines();
    for line in lines {
        match play_moments(alloc, net, script, line, address, page) {
            Ok(()) => {}
            Err(fault) => return Err(fault),
        }
    }
    Ok(())
}

/// Plays an event line, and adds its moments.
fn play_moments(
    alloc: Global,
    net: &mut Network,
    script: &LabScript<'_>,
    line: &LabLine<'_>,
    address: u32,
    page: &mut Page,
) -> Result<(), ScriptFault>
    requires goes_on { net.old.stopped ≡ None }
    requires laid { IsLaid (length script.now.routers) script.now.links net.old.seen }
    requires deed { IsDeed (length script.now.routers) script.now.links line.now.deed }
    ensures ends { (m : ModelNetwork) → StandsFor m net.old
        → play.LineEnds address line.now.line line.now.deed m net.new page.old page.new result }
    ensures goes_on { OnOk result (net.new.stopped ≡ None) }
    ensures links { net.new.seen.links ≡ net.old.seen.links }
    ensures routers { length net.new.seen.routers ≡ length net.old.seen.routers }
{
    let _routers = script.routers();
    match run_of(&line.deed) {
        Some(run) => play_seconds(alloc, net, line.line, run, address, page),
        None => play_event(alloc, net, script, line, address, page),
    }
}

/// What a line says, where it is a line `run`.
fn run_of(deed: &LabDeed<'_>) -> Option<RunLine>
    ensures { result ≡ play.run_of deed.now }
{
    match deed {
        LabDeed::Run {
            seconds,
            without,
            except,
        } => Some(RunLine {
            seconds: *seconds,
            without: *without,
            except: *except,
        }),
        _ => None,
    }
}

/// Plays an event line that is no line `run`, and adds the moment after it.
fn play_event(
    alloc: Global,
    net: &mut Network,
    script: &LabScript<'_>,
    line: &LabLine<'_>,
    address: u32,
    page: &mut Page,
) -> Result<(), ScriptFault>
    requires goes_on { net.old.stopped ≡ None }
    requires laid { IsLaid (length script.now.routers) script.now.links net.old.seen }
    requires deed { IsDeed (length script.now.routers) script.now.links line.now.deed }
    requires event { play.run_of line.now.deed ≡ None }
    requires few { length net.old.seen.routers ≤ 1024 }
    ensures ends { (m : ModelNetwork) → StandsFor m net.old
        → play.LineEnds address line.now.line line.now.deed m net.new page.old page.new result }
    ensures goes_on { OnOk result (net.new.stopped ≡ None) }
    ensures links { net.new.seen.links ≡ net.old.seen.links }
    ensures routers { length net.new.seen.routers ≡ length net.old.seen.routers }
{
    match play_line(alloc, net, script, line) {
        Ok(()) => note(alloc, net, line.line, 0, address, None, page),
        Err(fault) => Err(fault),
    }
}

/// Plays the seconds of a line `run`, and adds the moment after each.
fn play_seconds(
    alloc: Global,
    net: &mut Network,
    line: usize,
    run: RunLine,
    address: u32,
    page: &mut Page,
) -> Result<(), ScriptFault>
    requires goes_on { net.old.stopped ≡ None }
    requires seconds { run.seconds ≤ 86400 }
    requires except { IfSome run.except (λ router. router < length net.old.seen.routers) }
    requires few { length net.old.seen.routers ≤ 1024 }
    ensures ends { (m : ModelNetwork) → StandsFor m net.old
        → play.LineEnds address line (deed.Run run.seconds run.without run.except) m net.new
        page.old page.new result }
    ensures goes_on { OnOk result (net.new.stopped ≡ None) }
    ensures links { net.new.seen.links ≡ net.old.seen.links }
    ensures routers { length net.new.seen.routers ≡ length net.old.seen.routers }
{
    for second in 0..run.seconds {
        match play_second(alloc, net, line, run, second + 1, address, page) {
            Ok(()) => {}
            Err(fault) => return Err(fault),
        }
    }
    net.facts();
    Ok(())
}

/// Plays a second of a line `run`, and adds the moment after it, by its number.
fn play_second(
    alloc: Global,
    net: &mut Network,
    line: usize,
    run: RunLine,
    second: u32,
    address: u32,
    page: &mut Page,
) -> Result<(), ScriptFault>
    requires goes_on { net.old.stopped ≡ None }
    requires except { IfSome run.except (λ router. router < length net.old.seen.routers) }
    requires few { length net.old.seen.routers ≤ 1024 }
    ensures ends { (m : ModelNetwork) → StandsFor m net.old
        → play.SecondEnds address line run second m net.new page.old page.new result }
    ensures goes_on { OnOk result (net.new.stopped ≡ None) }
    ensures links { net.new.seen.links ≡ net.old.seen.links }
    ensures routers { length net.new.seen.routers ≡ length net.old.seen.routers }
{
    match net.run(1, run.without, run.except) {
        Ok(()) => note(alloc, net, line, second, address, run.except, page),
        Err(fault) => Err(fault_at(line, fault)),
    }
}

/// Adds a moment, with what is counted of the network at it.
fn note(
    alloc: Global,
    net: &Network,
    line: usize,
    second: u32,
    address: u32,
    except: Option<usize>,
    page: &mut Page,
) -> Result<(), ScriptFault>
    requires { length net.now.seen.routers ≤ 1024 }
    ensures added { OnOk result ((tally : TallyOf) × IsTallyOf net.now.seen address except tally
        × (page.new ≡ pages.with_moment page.old line second tally)) }
    ensures cause { IfErr result (λ fault. fault ≡ refused.OutOfMemory) }
{
    match add_tally(alloc, net, line, second, address, except, page) {
        Ok(()) => Ok(()),
        Err(OutOfMemory) => Err(ScriptFault::OutOfMemory),
    }
}

/// The same, where only memory may be wanting.
fn add_tally(
    alloc: Global,
    net: &Network,
    line: usize,
    second: u32,
    address: u32,
    except: Option<usize>,
    page: &mut Page,
) -> Result<(), OutOfMemory>
    requires { length net.now.seen.routers ≤ 1024 }
    ensures { OnOk result ((tally : TallyOf) × IsTallyOf net.now.seen address except tally
        × (page.new ≡ pages.with_moment page.old line second tally)) }
{
    let tally = tally_of(alloc, net, address, except)?;
    page.add(line, second, &tally)
}
