//! The lines of links and LANs in a report.
ghost use Rattle.std.specs.Prelude.{◌≡◌, ◌++◌, ◌<◌, length, OnOk};
ghost use Rattle.model_router.specs.Places.{nth};
ghost use Rattle.model_network.specs.RunLines.{ends_of};
ghost use Rattle.network_lab.specs.LinkStates.{runs_at, pair_of};
ghost use Rattle.lab_report.specs.LinkLines as lines;
ghost use Rattle.lab_report.specs.Names.{texts};

use crate::ends::is_point;
use crate::lan_lines::add_members;
use crate::router_lines::level_word;
use isis_base::{Level, Octets, OutOfMemory, add_number};
use network_lab::{LinkState, Network};

/// Adds the lines of a link or LAN: of a link one for each level that its two ends run, of a LAN one
/// for each level and each member that runs it.
pub(crate) fn add_link(
    page: &mut Octets,
    routers: &[&str],
    name: &str,
    net: &Network,
    link: usize,
) -> Result<(), OutOfMemory>
    requires { link < length net.now.seen.links }
    ensures { OnOk result (page.new
        ≡ page.old ++ lines.link_lines (texts routers.now) name.now net.now.seen link) }
{
    add_level(page, routers, name, net, link, Level::One)?;
    add_level(page, routers, name, net, link, Level::Two)
}

/// The lines of a level.
fn add_level(
    page: &mut Octets,
    routers: &[&str],
    name: &str,
    net: &Network,
    link: usize,
    level: Level,
) -> Result<(), OutOfMemory>
    requires { link < length net.now.seen.links }
    ensures { OnOk result (page.new ≡ page.old ++ lines.level_lines (texts routers.now) name.now
        net.now.seen link (ends_of (nth net.now.seen.links link)) level) }
{
    add_point(page, name, net, link, level)?;
    add_members(page, routers, name, net, link, level)
}

/// The line of a point-to-point link's level, where its two ends run it.
#[tactic(auto, unfolding(crate::specs::LinkLines::link_at))]
fn add_point(
    page: &mut Octets,
    name: &str,
    net: &Network,
    link: usize,
    level: Level,
) -> Result<(), OutOfMemory>
    requires { link < length net.now.seen.links }
    ensures { OnOk result (page.new ≡ page.old
        ++ lines.link_at name.now net.now.seen (ends_of (nth net.now.seen.links link)) level) }
{
    if !both_run(net, link, level) {
        return Ok(());
    }
    add_state(page, name, level, net.link_state(link, level))
}

/// Whether a link is point-to-point and its two ends run a level.
fn both_run(net: &Network, link: usize, level: Level) -> bool
    requires { link < length net.now.seen.links }
    ensures { result ≡ lines.both_run net.now.seen.routers level
        (pair_of (ends_of (nth net.now.seen.links link))) }
{
    net.facts();
    match net.ends(link) {
        [near, far] => is_point(net, *near, level) && is_point(net, *far, level),
        _ => false,
    }
}

/// Whether a router runs a level.
pub(crate) fn is_running(net: &Network, router: usize, level: Level) -> bool
    ensures { result ≡ runs_at net.now.seen.routers router level }
{
    if router >= net.routers() {
        return false;
    }
    net.router(router).book(level).is_some()
}

/// `link NAME LEVEL up ..`, or `link NAME LEVEL down`.
#[tactic(auto, unfolding(crate::specs::LinkLines::link_line))]
fn add_state(
    page: &mut Octets,
    name: &str,
    level: Level,
    state: LinkState,
) -> Result<(), OutOfMemory>
    ensures { OnOk result (page.new ≡ page.old ++ lines.link_line name.now level state) }
{
    page.extend(b"link ")?;
    page.extend(name.as_bytes())?;
    page.extend(b" ")?;
    page.extend(level_word(level))?;
    if !state.up {
        return page.extend(b" down\n");
    }
    add_up(page, state)
}

/// ` up flags F G ahead P Q excepted E`.
#[tactic(auto, unfolding(crate::specs::LinkLines::up_words))]
fn add_up(page: &mut Octets, state: LinkState) -> Result<(), OutOfMemory>
    ensures { OnOk result (page.new ≡ page.old ++ lines.up_words state) }
{
    let [near, far] = state.flags;
    add_number(page, b" up flags ", near as u64)?;
    add_number(page, b" ", far as u64)?;
    let [near, far] = state.ahead;
    add_number(page, b" ahead ", near as u64)?;
    add_number(page, b" ", far as u64)?;
    add_number(page, b" excepted ", state.excepted as u64)?;
    page.extend(b"\n")
}
