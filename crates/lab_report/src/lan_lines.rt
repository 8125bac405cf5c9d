//! The lines of LANs in a report.
ghost use Rattle.std.specs.Prelude.{◌≡◌, ◌+◌, ◌++◌, ◌<◌, drop, length, Some, IsSome, OnOk};
ghost use Rattle.std.specs.Str.{bytes_eq};
ghost use Rattle.model_router.specs.Places.{nth};
ghost use Rattle.model_network.specs.Networks.{place_in};
ghost use Rattle.model_network.specs.RunLines.{ends_of};
ghost use Rattle.network_lab.specs.Claims.{IsEndIn};
ghost use Rattle.lab_report.specs.LanLines as lines;
ghost use Rattle.lab_report.specs.Names.{texts, name_at};

use crate::ends::{is_lan, router_of};
use crate::names::add_name;
use crate::router_lines::{level_word, system_of};
use isis_base::{Level, Octets, OutOfMemory, SystemId, add_system_id};
use model_network::End;
use network_lab::{LanState, Network};

/// Adds the lines of a LAN at a level: one for each member that runs it.
pub(crate) fn add_members(
    page: &mut Octets,
    routers: &[&str],
    name: &str,
    net: &Network,
    lan: usize,
    level: Level,
) -> Result<(), OutOfMemory>
    requires { lan < length net.now.seen.links }
    ensures { OnOk result (page.new ≡ page.old ++ lines.member_lines (texts routers.now) name.now
        net.now.seen lan level (ends_of (nth net.now.seen.links lan))) }
{
    for place in 0..net.ends(lan).len() {
        match add_member(page, routers, name, net, lan, place, level) {
            Ok(()) => {}
            Err(error) => return Err(error),
        }
    }
    Ok(())
}

/// Adds the line of the member at a place, where it runs the level.
fn add_member(
    page: &mut Octets,
    routers: &[&str],
    name: &str,
    net: &Network,
    lan: usize,
    place: usize,
    level: Level,
) -> Result<(), OutOfMemory>
    requires lan { lan < length net.now.seen.links }
    requires place { place < length (ends_of (nth net.now.seen.links lan)) }
    ensures { OnOk result (page.new ++ lines.member_lines (texts routers.now) name.now
        net.now.seen lan level (drop (place + 1) (ends_of (nth net.now.seen.links lan)))
        ≡ page.old ++ lines.member_lines (texts routers.now) name.now
        net.now.seen lan level (drop place (ends_of (nth net.now.seen.links lan)))) }
{
    let end = end_at(net, lan, place);
    match add_end(page, routers, name, net, lan, end, level) {
        Ok(()) => Ok(()),
        Err(error) => Err(error),
    }
}

/// The end of a LAN at a place.
fn end_at(net: &Network, lan: usize, place: usize) -> End
    requires lan { lan < length net.now.seen.links }
    requires place { place < length (ends_of (nth net.now.seen.links lan)) }
    ensures at { nth (ends_of (nth net.now.seen.links lan)) place ≡ Some result }
    ensures there { IsEndIn net.now.seen.routers result }
    ensures on { IsSome (place_in (nth net.now.seen.links lan) result.router) }
{
    net.facts();
    net.ends(lan)[place]
}

/// Adds the line of a member, where it runs the level.
#[tactic(auto, unfolding(crate::specs::LanLines::member_line))]
fn add_end(
    page: &mut Octets,
    routers: &[&str],
    name: &str,
    net: &Network,
    lan: usize,
    end: End,
    level: Level,
) -> Result<(), OutOfMemory>
    requires lan { lan < length net.now.seen.links }
    requires there { IsEndIn net.now.seen.routers end }
    requires on { IsSome (place_in (nth net.now.seen.links lan) end.router) }
    ensures { OnOk result (page.new ≡ page.old
        ++ lines.member_line (texts routers.now) name.now net.now.seen lan level end) }
{
    if !is_lan(net, end, level) {
        return Ok(());
    }
    let own = system_of(router_of(net, end));
    let state = net.lan_state(lan, end.router, level);
    add_line(page, name, level, routers, end.router, own, state)
}

/// `lan NAME LEVEL MEMBER sees ..`.
#[tactic(auto, unfolding(crate::specs::LanLines::lan_line))]
fn add_line(
    page: &mut Octets,
    name: &str,
    level: Level,
    routers: &[&str],
    member: usize,
    own: SystemId,
    state: LanState,
) -> Result<(), OutOfMemory>
    ensures { OnOk result (page.new ≡ page.old
        ++ lines.lan_line name.now level (name_at (texts routers.now) member) own state) }
{
    page.extend(b"lan ")?;
    page.extend(name.as_bytes())?;
    page.extend(b" ")?;
    page.extend(level_word(level))?;
    page.extend(b" ")?;
    add_name(page, routers, member)?;
    page.extend(b" sees")?;
    add_sees(page, own, state)?;
    page.extend(b"\n")
}

/// ` SYSTEM swept yes|no`; of itself ` SYSTEM`, and ` none` where it sees nobody.
fn add_sees(page: &mut Octets, own: SystemId, state: LanState) -> Result<(), OutOfMemory>
    ensures { OnOk result (page.new ≡ page.old ++ lines.sees_words own state.swept state.sees) }
{
    match state.sees {
        Some(system) => add_seen(page, own, system, state.swept),
        None => page.extend(b" none"),
    }
}

/// ` SYSTEM swept yes|no`; of itself ` SYSTEM`.
fn add_seen(
    page: &mut Octets,
    own: SystemId,
    system: SystemId,
    swept: bool,
) -> Result<(), OutOfMemory>
    ensures { OnOk result (page.new ≡ page.old ++ lines.sees_words own swept (Some system)) }
{
    add_system_id(page, b" ", system)?;
    if system == own {
        return Ok(());
    }
    page.extend(swept_word(swept))
}

/// Whether a member is swept, as a word.
fn swept_word(swept: bool) -> &'static [u8]
    ensures { result.now ≡ lines.swept_words swept }
{
    if swept { b" swept yes" } else { b" swept no" }
}
