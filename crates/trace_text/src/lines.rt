//! The text of a trace.
ghost use Rattle.std.specs.Prelude.{◌≡◌, ◌++◌, ◌<◌, ◌-◌, drop, length, map, IfOk, OnOk, slice_get};
ghost use Rattle.std.specs.List.{flat_map};
ghost use Rattle.spf_tree.specs.Nodes.{system_node};
ghost use Rattle.lab_script.specs.Scripts.{names_in};
ghost use Rattle.lab_text.specs.Passed.{name_at};
ghost use Rattle.lab_report.specs.RouteLines.{hop_text, way_text, rank_text};
ghost use Rattle.packet_trace.specs.Steps.{node_of};
ghost use Rattle.trace_text.specs.TraceText as lines;

use crate::find::Trace;
use isis_base::{LspId, NodeId, Octets, OutOfMemory, SystemId, add_number, add_system_id};
use lab_text::Script;
use packet_trace::{Forwarder, place_of, route_at};
use route_table::{Rank, Route};
use router_sending::laws::id_law;
use std::alloc::Global;
use trace_core::{End, Outcomes, Traced};
use walk_text::parts::{add_hops, add_prefix, name_of, printed_cost};

/// The text of a trace from the router of this name.
#[tactic(auto, unfolding(crate::specs::TraceText::trace_text))]
pub(crate) fn trace_text(
    alloc: Global,
    script: &Script<'_>,
    name: &str,
    address: u32,
    trace: &Trace,
) -> Result<Octets, OutOfMemory>
    ensures { IfOk result (λ text. text
        ≡ lines.trace_text (names_in script.now) name.now trace.now.forwarders.items address trace.now.traced
        trace.now.outcomes) }
{
    let mut text = Octets::new(alloc);
    text.extend(b"isis-trace 1\n")?;
    add_trace(&mut text, name, address, trace.traced.end)?;
    add_places(alloc, &mut text, script, address, trace)?;
    add_round(&mut text, script, &trace.traced)?;
    add_whichever(&mut text, trace.outcomes)?;
    Ok(text)
}

/// `trace NAME ADDRESS arrives|lost|loops`.
#[tactic(auto, unfolding(crate::specs::TraceText::trace_line))]
fn add_trace(text: &mut Octets, name: &str, address: u32, end: End) -> Result<(), OutOfMemory>
    ensures { OnOk result (text.new ≡ text.old ++ lines.trace_line name.now address end) }
{
    text.extend(b"trace ")?;
    text.extend(name.as_bytes())?;
    add_address(text, address)?;
    text.extend(end_word(end))?;
    text.extend(b"\n")
}

/// A blank and the text of an address.
fn add_address(text: &mut Octets, address: u32) -> Result<(), OutOfMemory>
    ensures { OnOk result (text.new ≡ text.old ++ lines.address_words address) }
{
    let [a, b, c, d] = address.to_be_bytes();
    add_number(text, b" ", u64::from(a))?;
    add_number(text, b".", u64::from(b))?;
    add_number(text, b".", u64::from(c))?;
    add_number(text, b".", u64::from(d))
}

/// The word of an end, after a blank.
fn end_word(end: End) -> &'static [u8]
    ensures { result.now ≡ lines.end_word end }
{
    match end {
        End::Arrives => b" arrives",
        End::Lost => b" lost",
        End::Loops(_) => b" loops",
    }
}

/// A line for each router on the way.
fn add_places(
    alloc: Global,
    text: &mut Octets,
    script: &Script<'_>,
    address: u32,
    trace: &Trace,
) -> Result<(), OutOfMemory>
    ensures { OnOk result (text.new ≡ text.old
        ++ flat_map (lines.at_line (names_in script.now) trace.now.forwarders.items address)
        trace.now.traced.places.items) }
{
    for place in trace.traced.places.as_slice() {
        match add_place(
            alloc,
            text,
            script,
            trace.forwarders.as_slice(),
            address,
            *place,
        ) {
            Ok(()) => {}
            Err(error) => return Err(error),
        }
    }
    Ok(())
}

/// The line of a router on the way.
#[tactic(auto, unfolding(crate::specs::TraceText::at_line))]
fn add_place(
    alloc: Global,
    text: &mut Octets,
    script: &Script<'_>,
    forwarders: &[Forwarder],
    address: u32,
    place: usize,
) -> Result<(), OutOfMemory>
    ensures { OnOk result (text.new ≡ text.old
        ++ lines.at_line (names_in script.now) forwarders.now address place) }
{
    text.extend(b"at ")?;
    text.extend(name_of(script, place).as_bytes())?;
    match route_at(forwarders, address, place) {
        Some(route) => add_route(alloc, text, script, forwarders, route)?,
        None => text.extend(b" no-route")?,
    }
    text.extend(b"\n")
}

/// ` PREFIX RANK COST to NAME`, ` PREFIX own COST` or ` PREFIX RANK COST stranger SYSTEM`.
#[tactic(auto, unfolding(crate::specs::TraceText::route_words))]
fn add_route(
    alloc: Global,
    text: &mut Octets,
    script: &Script<'_>,
    forwarders: &[Forwarder],
    route: &Route,
) -> Result<(), OutOfMemory>
    ensures { OnOk result (text.new ≡ text.old
        ++ lines.route_words (names_in script.now) (map node_of forwarders.now) route.now) }
{
    add_prefix(alloc, text, route.prefix)?;
    add_way(text, route.rank, printed_cost(route.cost))?;
    match route.hops.get(0) {
        Some(system) => add_next(text, script, forwarders, system),
        None => Ok(()),
    }
}

/// A rank and a cost, each after a blank.
fn add_way(text: &mut Octets, rank: Rank, cost: u64) -> Result<(), OutOfMemory>
    ensures { OnOk result (text.new ≡ text.old ++ way_text rank cost) }
{
    text.extend(b" ")?;
    text.extend(rank_word(rank))?;
    add_number(text, b" ", cost)
}

/// The word of a rank.
fn rank_word(rank: Rank) -> &'static [u8]
    ensures { result.now ≡ rank_text rank }
{
    match rank {
        Rank::Own => b"own",
        Rank::One => b"L1",
        Rank::Two => b"L2",
        Rank::OneDown => b"L1d",
        Rank::Default => b"default",
    }
}

/// ` to NAME`, or ` stranger SYSTEM` where the next hop is none of the routers.
#[tactic(auto, unfolding(crate::specs::TraceText::next_words))]
fn add_next(
    text: &mut Octets,
    script: &Script<'_>,
    forwarders: &[Forwarder],
    system: SystemId,
) -> Result<(), OutOfMemory>
    ensures { OnOk result (text.new ≡ text.old
        ++ lines.next_words (names_in script.now) (map node_of forwarders.now) (system_node system)) }
{
    match place_of(forwarders, system) {
        Some(place) => {
            text.extend(b" to ")?;
            text.extend(name_of(script, place).as_bytes())
        }
        None => add_stranger(text, system),
    }
}

/// ` stranger SYSTEM`.
fn add_stranger(text: &mut Octets, system: SystemId) -> Result<(), OutOfMemory>
    ensures { OnOk result (text.new ≡ text.old ++ lines.stranger_words (system_node system)) }
{
    text.extend(b" stranger")?;
    add_system(text, system)
}

/// A blank and a system ID.
#[tactic(auto, unfolding(lab_report::specs::RouteLines::hop_text))]
fn add_system(text: &mut Octets, system: SystemId) -> Result<(), OutOfMemory>
    ensures { OnOk result (text.new ≡ text.old ++ hop_text (system_node system)) }
{
    id_law(LspId {
        node: NodeId {
            system,
            pseudonode: 0,
        },
        number: 0,
    });
    add_system_id(text, b" ", system)
}

/// `round NAME NAME` where the packet loops: the routers among which it goes round.
#[tactic(auto, unfolding(crate::specs::TraceText::round_line))]
fn add_round(text: &mut Octets, script: &Script<'_>, traced: &Traced) -> Result<(), OutOfMemory>
    ensures { OnOk result (text.new ≡ text.old
        ++ lines.round_line (names_in script.now) traced.now.places.items traced.now.end) }
{
    match traced.end {
        End::Loops(back) => {
            text.extend(b"round")?;
            add_hops(text, script, after(traced.places.as_slice(), back))?;
            text.extend(b"\n")
        }
        End::Arrives | End::Lost => Ok(()),
    }
}

/// The places from one on.
fn after(places: &[usize], back: usize) -> &[usize]
    ensures { result.now ≡ drop back places.now }
{
    if back < places.len() {
        return &places[back..];
    }
    &[]
}

/// `whichever [arrives] [loops] [lost]`.
#[tactic(auto, unfolding(crate::specs::TraceText::whichever_line))]
fn add_whichever(text: &mut Octets, outcomes: Outcomes) -> Result<(), OutOfMemory>
    ensures { OnOk result (text.new ≡ text.old ++ lines.whichever_line outcomes) }
{
    text.extend(b"whichever")?;
    add_if(text, outcomes.arrives, b" arrives")?;
    add_if(text, outcomes.loops, b" loops")?;
    add_if(text, outcomes.lost, b" lost")?;
    text.extend(b"\n")
}

/// A word, where it holds.
fn add_if(text: &mut Octets, holds: bool, word: &[u8]) -> Result<(), OutOfMemory>
    ensures { OnOk result (text.new ≡ text.old ++ lines.word_if holds word.now) }
{
    if holds {
        return text.extend(word);
    }
    Ok(())
}
