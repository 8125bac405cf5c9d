//! The report of a network of routers, made as it is written.
ghost use Rattle.std.specs.Prelude.{◌≡◌, ◌≤◌, ◌<◌, ◌+◌, [], ◌++◌, length, if◌then◌else◌, true, false, Ok, OnOk, IfOk};
ghost use Rattle.std.specs.List.{flat_map};
ghost use Rattle.isis_base.specs.Texts.{hex_pair};
ghost use Rattle.model_router.specs.Places.{nth};
ghost use Rattle.isis_base.specs.declared.level.Level.TheVariants as level;
ghost use Rattle.model_network.specs.Networks.{numbered};
ghost use Rattle.network_lab.specs.LinkStates.{runs_of, groups_at};
ghost use Rattle.lab_report.specs.LinkLines.{agree_line};
ghost use Rattle.lab_report.specs.Reports as lines;
ghost use Rattle.lab_report.specs.Reports.{AreAllRoutes, report_text};
ghost use Rattle.lab_report.specs.Names.{texts};
ghost use Rattle.lab_report.specs.ReportLeft.{routes_of, lines_left, calls_left};

use crate::doubled_lines::add_doubled;
use crate::left::{GroupCounts, LabReport};
use crate::link_lines::{add_link, is_running};
use crate::names::add_name;
use crate::router_lines::{add_router, level_word};
use isis_base::{Level, Octets, OutOfMemory, add_hex, add_number};
use isis_edge::Text;
use network_lab::Network;
use route_table::Routes;
use std::alloc::Global;

impl<'n, 't> LabReport<'n, 't> {
    /// The report of a network whose routers and links have these names, with the datagrams of
    /// these numbers.
    pub fn new(
        alloc: Global,
        net: &'n Network,
        routers: &'t [&'t str],
        links: &'t [&'t str],
        dumps: &'t [usize],
    ) -> Result<LabReport<'n, 't>, OutOfMemory>
        requires routers { length routers.now ≤ length net.now.seen.routers }
        requires links { length links.now ≤ length net.now.seen.links }
        requires few_routers { length routers.now ≤ 1024 }
        requires few_links { length links.now ≤ 4096 }
        ensures text { IfOk result (λ report. lines_left report ≡ report_text (texts routers.now)
            (texts links.now) dumps.now (routes_of report.routes.items) net.now.seen) }
        ensures routes { IfOk result (λ report.
            AreAllRoutes net.now.seen.routers (routes_of report.routes.items)) }
    {
        let routes = routes_of(alloc, net)?;
        let groups = GroupCounts {
            one: group_count(net, Level::One)?,
            two: group_count(net, Level::Two)?,
        };
        Ok(LabReport {
            net,
            routers,
            links,
            groups,
            routes,
            head: b"isis-report 1\n",
            router: 0,
            router_names: routers,
            link: 0,
            link_names: links,
            is_open: true,
            dumps,
        })
    }
}

impl<'n, 't> Text for LabReport<'n, 't> {
    ghost rest = { lines_left };

    ghost calls = { calls_left };

    fn add_next(&mut self, page: &mut Octets) -> Result<bool, OutOfMemory> {
        page.extend(self.head)?;
        self.head = b"";
        match self.router_names {
            [] => self.add_behind_routers(page),
            [name, others @ ..] => {
                add_block(page, name, self.net, &self.routes, self.router)?;
                self.router += 1;
                self.router_names = others;
                Ok(true)
            }
        }
    }
}

impl<'n, 't> LabReport<'n, 't> {
    /// The next piece, where the blocks of all routers are written.
    fn add_behind_routers(&mut self, page: &mut Octets) -> Result<bool, OutOfMemory>
        requires { (self.old.head.now ≡ []) × (self.old.router_names.now ≡ []) }
        ensures adds { OnOk result (page.new ++ lines_left self.new ≡ page.old ++ lines_left self.old) }
        ensures ends { result ≡ Ok false → lines_left self.new ≡ [] }
        ensures fewer { result ≡ Ok true → calls_left self.new < calls_left self.old }
    {
        match self.link_names {
            [] => self.add_behind_links(page),
            [name, others @ ..] => {
                add_link(page, self.routers, name, self.net, self.link)?;
                self.link += 1;
                self.link_names = others;
                Ok(true)
            }
        }
    }

    /// The next piece, where the lines of all links are written too.
    fn add_behind_links(&mut self, page: &mut Octets) -> Result<bool, OutOfMemory>
        requires { (self.old.head.now ≡ []) × (self.old.router_names.now ≡ [])
            × (self.old.link_names.now ≡ []) }
        ensures adds { OnOk result (page.new ++ lines_left self.new ≡ page.old ++ lines_left self.old) }
        ensures ends { result ≡ Ok false → lines_left self.new ≡ [] }
        ensures fewer { result ≡ Ok true → calls_left self.new < calls_left self.old }
    {
        if self.is_open {
            add_net(page, self.net, self.groups)?;
            self.is_open = false;
            return Ok(true);
        }
        match self.dumps {
            [] => Ok(false),
            [number, others @ ..] => {
                add_datagram(page, self.routers, self.links, self.net, *number)?;
                self.dumps = others;
                Ok(true)
            }
        }
    }
}

/// The block of a router, by its number.
fn add_block(
    page: &mut Octets,
    name: &str,
    net: &Network,
    routes: &[&Routes],
    router: usize,
) -> Result<(), OutOfMemory>
    requires there { router < length net.now.seen.routers }
    requires told { length routes.now ≡ length net.now.seen.routers }
    ensures { OnOk result (page.new ≡ page.old ++ lines.router_block name.now
        (nth net.now.seen.routers router) (lines.routes_at (routes_of routes.now) router)) }
{
    add_router(page, name, net.router(router), routes[router].list())
}

/// The routes of each router.
fn routes_of<'n>(alloc: Global, net: &'n Network) -> Result<Vec<&'n Routes>, OutOfMemory>
    ensures all { IfOk result
        (λ routes. AreAllRoutes net.now.seen.routers (routes_of routes.items)) }
    ensures count { IfOk result (λ routes. length routes.items ≡ length net.now.seen.routers) }
{
    let mut routes = Vec::new(alloc);
    for router in 0..net.routers() {
        match routes.push(net.router(router).routes()) {
            Ok(()) => {}
            Err(_) => return Err(OutOfMemory),
        }
    }
    Ok(routes)
}

/// In how many groups the routers of a level agree.
fn group_count(net: &Network, level: Level) -> Result<usize, OutOfMemory>
    ensures { IfOk result (λ count. count ≡ length (groups_at net.now.seen level)) }
{
    let groups = net.agreed(level)?;
    Ok(groups.len())
}

/// The lines of the network: which routers agree, which LSP IDs are doubled, and how much was injected and sent.
fn add_net(page: &mut Octets, net: &Network, groups: GroupCounts) -> Result<(), OutOfMemory>
    requires one { groups.one ≡ length (groups_at net.now.seen level.One) }
    requires two { groups.two ≡ length (groups_at net.now.seen level.Two) }
    ensures { OnOk result (page.new ≡ page.old ++ lines.net_lines net.now.seen) }
{
    add_agree(page, Level::One, count(net, Level::One), groups.one)?;
    add_agree(page, Level::Two, count(net, Level::Two), groups.two)?;
    add_doubled(page, net, Level::One)?;
    add_doubled(page, net, Level::Two)?;
    add_totals(page, net)
}

/// `injected N` and `datagrams N`.
#[tactic(auto, unfolding(crate::specs::Reports::total_lines))]
fn add_totals(page: &mut Octets, net: &Network) -> Result<(), OutOfMemory>
    ensures { OnOk result (page.new ≡ page.old ++ lines.total_lines net.now.seen) }
{
    add_number(page, b"injected ", net.injected())?;
    add_number(page, b"\ndatagrams ", net.datagrams() as u64)?;
    page.extend(b"\n")
}

/// How many routers run a level.
fn count(net: &Network, level: Level) -> usize
    ensures { result ≡ lines.count_on (runs_of net.now.seen.routers level) }
{
    let mut count = 0usize;
    for router in 0..net.routers() {
        count += one_if(is_running(net, router, level));
    }
    count
}

/// 1 or 0.
fn one_if(is: bool) -> usize
    ensures value { result ≡ (if is then 1 else 0) }
    ensures few { result ≤ 1 }
{
    if is { 1 } else { 0 }
}

/// `agree LEVEL routers R groups G`.
#[tactic(auto, unfolding(crate::specs::LinkLines::agree_line))]
fn add_agree(
    page: &mut Octets,
    level: Level,
    routers: usize,
    groups: usize,
) -> Result<(), OutOfMemory>
    ensures { OnOk result (page.new ≡ page.old ++ agree_line level routers groups) }
{
    page.extend(b"agree ")?;
    page.extend(level_word(level))?;
    add_number(page, b" routers ", routers as u64)?;
    add_number(page, b" groups ", groups as u64)?;
    page.extend(b"\n")
}

/// The line of a datagram, where it was sent.
fn add_datagram(
    page: &mut Octets,
    routers: &[&str],
    links: &[&str],
    net: &Network,
    number: usize,
) -> Result<(), OutOfMemory>
    ensures { OnOk result (page.new ≡ page.old ++ lines.datagram_at (texts routers.now)
        (texts links.now) number (numbered net.now.seen.sent number)) }
{
    let Some((sender, link)) = net.origin(number) else {
        return Ok(());
    };
    let Some(octets) = net.datagram(number) else {
        return Ok(());
    };
    let told = Told {
        number,
        sender,
        link,
        octets,
    };
    add_told(page, routers, links, &told)
}

/// A datagram that is told.
#[derive(Drop)]
struct Told<'n> {
    number: usize,
    sender: usize,
    link: usize,
    octets: &'n [u8],
}

/// `datagram K ROUTER LINK HEX`.
#[tactic(auto, unfolding(crate::specs::Reports::datagram_line))]
fn add_told(
    page: &mut Octets,
    routers: &[&str],
    links: &[&str],
    told: &Told<'_>,
) -> Result<(), OutOfMemory>
    ensures { OnOk result (page.new ≡ page.old ++ lines.datagram_line (texts routers.now)
        (texts links.now) told.now.number told.now.sender told.now.link told.now.octets.now) }
{
    add_number(page, b"datagram ", told.number as u64)?;
    page.extend(b" ")?;
    add_name(page, routers, told.sender)?;
    page.extend(b" ")?;
    add_name(page, links, told.link)?;
    page.extend(b" ")?;
    add_octets(page, told.octets)?;
    page.extend(b"\n")
}

/// Octets in hex.
fn add_octets(page: &mut Octets, octets: &[u8]) -> Result<(), OutOfMemory>
    ensures { OnOk result (page.new ≡ page.old ++ flat_map hex_pair octets.now) }
{
    for octet in octets {
        match add_hex(page, *octet) {
            Ok(()) => {}
            Err(error) => return Err(error),
        }
    }
    Ok(())
}
