//! A router of a list takes an event, and what it sends joins what was sent.
ghost use Rattle.std.specs.Prelude.{◌≡◌, ℕ, ◌+◌, ◌-◌, ◌<◌, ◌≤◌, ◌∷◌, ◌++◌, ◌==◌, ◌&&◌, not, true, map, length, Some, IfSome, IfOk, IfErr, OnOk, OnErr};
ghost use Rattle.model_router.specs.Places.{nth, with_nth};
ghost use Rattle.model_router.specs.Routers as model;
ghost use Rattle.model_router.specs.Routers.{book_of};
ghost use Rattle.model_router.specs.Events as events;
ghost use Rattle.model_router.specs.Steps.{step};
ghost use Rattle.model_router.specs.AdjacencyLaws.{place_of};
ghost use Rattle.router_core.specs.Events.{event_of, Fits, IsThere};
ghost use Rattle.router_core.specs.Givens.{given};
ghost use Rattle.router_core.specs.Replies.{Answers};
ghost use Rattle.model_network.specs.Networks.{restarted};
ghost use Rattle.model_network.specs.Runs.{taking, boot_of, posted, changes_of as counts_of_keys};
ghost use Rattle.lab_facts.specs.Seen.{AreEnough};
ghost use Rattle.network_lab.specs.LabNets.{counts_in, sent_of};
ghost use Rattle.network_lab.specs.LabTakings.{is_taken, kept_ranges, noted_in};
ghost use Rattle.network_lab.specs.Noting.{IsNoted, stands};
ghost use Rattle.network_lab.specs.LabInside.{shapes_of};
ghost use Rattle.network_lab.specs.LabSteps.{sent_by, posted_in, StopCause};
ghost use Rattle.network_lab.specs.Reached.{AreSmall};

use crate::heard_range::HeardRange;
use crate::notes::Notes;
use crate::places::{boot_at, changes_at, put_at};
use crate::sent::{Changes, SentDatagram};
use isis_base::laws::octets_law;
use isis_base::{Level, Octets, OutOfMemory};
use lab_facts::{Histories, LevelsToSee, Sweeps};
use lab_keys::{LabFault, LimitName};
use model_router::laws::adjacencies::step_bonds;
use router_core::{Keeping, NodeEvent, Reply, Router};
use router_desk::laws::reading_law;

/// The most datagrams of a network.
pub(crate) const SENT_LIMIT: usize = 262144;

/// A router takes an event: what it sends on the link joins what was sent, its state what is noted, and the range that it
/// heard too, where it takes that. Where all that it held live of its own LSP IDs was seen before, a level of which no key
/// changed isn't looked at.
pub(crate) fn take_at<K: Keeping>(
    routers: &mut Vec<Router<K>>,
    sent: &mut Vec<SentDatagram>,
    notes: &mut Notes,
    router: usize,
    link: Option<usize>,
    event: NodeEvent,
    heard: Option<HeardRange>,
    seen: bool,
) -> Result<(), LabFault>
    requires there { router < length routers.old.items }
    requires fits { IfSome (nth routers.old.items router) (λ r. Fits r event) }
    requires few { length sent.old.items ≤ 262144 }
    requires small { AreSmall sent.old.items }
    requires noted { seen ≡ true → IfSome (nth routers.old.items router) (λ r.
        IsNoted notes.old.past r) }
    ensures routers { OnOk result (IfSome (nth routers.old.items router) (λ r. routers.new.items
        ≡ with_nth routers.old.items router (step given r (event_of r event)).router)) }
    ensures sent { OnOk result (IfSome (nth routers.old.items router) (λ r. sent.new.items
        ≡ sent.old.items ++ posted_in router link (event_of r event) r)) }
    ensures noted { OnOk result (IfSome (nth routers.old.items router) (λ r. notes.new
        ≡ noted_in heard (step given r (event_of r event)) notes.old)) }
    ensures cause { IfErr result (λ fault. IfSome (nth routers.old.items router) (λ r.
        StopCause (sent.old.items ++ posted_in router link (event_of r event) r) sent.new.items
        fault)) }
    ensures shapes { shapes_of routers.new.items ≡ shapes_of routers.old.items }
    ensures few { length sent.new.items ≤ 262144 }
    ensures small { AreSmall sent.new.items }
{
    let before = changes_at(routers, router);
    let reply = match step_at(routers, router, event) {
        Ok(reply) => reply,
        Err(_) => return Err(LabFault::OutOfMemory),
    };
    let changes = changes_at(routers, router);
    let levels = levels_to_see(seen, before, changes);
    match note(notes, routers, router, &reply, heard, levels) {
        Ok(()) => {}
        Err(_) => return Err(LabFault::OutOfMemory),
    }
    let boot = boot_at(routers, router);
    send(sent, router, boot, changes, link, reply)
}

/// The levels whose own LSPs are looked at after an event: those whose counts of changes don't stand, and both where not
/// all was seen before.
fn levels_to_see(seen: bool, before: Changes, now: Changes) -> LevelsToSee
    ensures one { result.one ≡ not (seen && stands before.one now.one) }
    ensures two { result.two ≡ not (seen && stands before.two now.two) }
{
    LevelsToSee {
        one: !(seen & stands(before.one, now.one)),
        two: !(seen & stands(before.two, now.two)),
    }
}

/// Whether a count of changes stands where it did, short of its type's last value.
fn stands(before: u64, now: u64) -> bool
    ensures { result ≡ stands before now }
{
    before == now && now < u64::MAX
}

/// A router's state after an event is noted, and the range that it heard, where it takes that.
fn note<K: Keeping>(
    notes: &mut Notes,
    routers: &[Router<K>],
    router: usize,
    reply: &Reply,
    heard: Option<HeardRange>,
    levels: LevelsToSee,
) -> Result<(), OutOfMemory>
    requires { IfSome (nth routers.now router) (λ r. AreEnough levels notes.old.past r) }
    ensures { OnOk result ((r : model.Router) (place : ℕ) (m : events.Reply)
        → Answers r place m reply.now → nth routers.now router ≡ Some r
        → notes.new ≡ noted_in heard (record { router = r; reply = m }) notes.old) }
{
    match note_state(&mut notes.past, routers, router, levels) {
        Ok(()) => keep(&mut notes.takings, routers, router, reply, heard),
        Err(error) => Err(error),
    }
}

/// A router's state is noted.
fn note_state<K: Keeping>(
    histories: &mut Histories,
    routers: &[Router<K>],
    router: usize,
    levels: LevelsToSee,
) -> Result<(), OutOfMemory>
    requires { IfSome (nth routers.now router) (λ r. AreEnough levels histories.old r) }
    ensures { OnOk result ((r : model.Router) → nth routers.now router ≡ Some r
        → histories.new ≡ r ∷ histories.old) }
{
    match routers.get(router) {
        Some(router) => histories.note_after(router, levels),
        None => Ok(()),
    }
}

/// The range that a router heard joins those that were taken, where it takes that.
fn keep<K: Keeping>(
    sweeps: &mut Sweeps,
    routers: &[Router<K>],
    router: usize,
    reply: &Reply,
    heard: Option<HeardRange>,
) -> Result<(), OutOfMemory>
    ensures { OnOk result ((r : model.Router) (place : ℕ) (m : events.Reply)
        → Answers r place m reply.now → nth routers.now router ≡ Some r
        → sweeps.new ≡ kept_ranges heard (record { router = r; reply = m }) ++ sweeps.old) }
{
    match heard {
        None => Ok(()),
        Some(range) => {
            if is_kept(routers, router, reply, range) {
                return sweeps.take(range.key, range.first, range.last);
            }
            Ok(())
        }
    }
}

/// Whether a range that a router heard is taken: the datagram isn't dropped, and no key changed.
fn is_kept<K: Keeping>(
    routers: &[Router<K>],
    router: usize,
    reply: &Reply,
    range: HeardRange,
) -> bool
    ensures { (r : model.Router) (place : ℕ) (m : events.Reply) → Answers r place m reply.now
        → nth routers.now router ≡ Some r
        → result ≡ (is_taken m && (book_of r range.key.level).changes == range.key.changes) }
{
    !is_dropped(reply) && count_at(routers, router, range.key.level) == range.key.changes
}

/// Whether a datagram that was taken was dropped.
fn is_dropped(reply: &Reply) -> bool
    ensures { (r : model.Router) (place : ℕ) (m : events.Reply) → Answers r place m reply.now
        → not result ≡ is_taken m }
{
    match reply {
        Reply::Dropped(_) => true,
        Reply::Done | Reply::Send(_) => false,
    }
}

/// How many changes of keys a level's database of a router has had.
fn count_at<K: Keeping>(routers: &[Router<K>], router: usize, level: Level) -> u64
    ensures { IfSome (nth routers.now router) (λ r. result ≡ (book_of r level).changes) }
{
    match routers.get(router) {
        Some(router) => router.changes(level),
        None => 0,
    }
}

/// What a router answers in a boot joins what was sent, where it sends on a link.
fn send(
    sent: &mut Vec<SentDatagram>,
    sender: usize,
    boot: u32,
    changes: Changes,
    link: Option<usize>,
    reply: Reply,
) -> Result<(), LabFault>
    requires few { length sent.old.items ≤ 262144 }
    requires small { AreSmall sent.old.items }
    ensures ok { OnOk result ((r : model.Router) (place : ℕ) (m : events.Reply)
        → Answers r place m reply → boot ≡ r.boot → changes ≡ counts_in (counts_of_keys r)
        → sent.new.items ≡ sent.old.items ++ map sent_of (posted sender link r place m)) }
    ensures cause { IfErr result (λ fault. (r : model.Router) (place : ℕ) (m : events.Reply)
        → Answers r place m reply → boot ≡ r.boot → changes ≡ counts_in (counts_of_keys r)
        → StopCause (sent.old.items ++ map sent_of (posted sender link r place m)) sent.new.items
        fault) }
    ensures few { length sent.new.items ≤ 262144 }
    ensures small { AreSmall sent.new.items }
{
    match (link, reply) {
        (Some(link), Reply::Send(datagrams)) => {
            post(sent, sender, boot, changes, link, datagrams.into_items())
        }
        (Some(_), Reply::Done) => Ok(()),
        (Some(_), Reply::Dropped(_)) => Ok(()),
        (None, _) => Ok(()),
    }
}

/// A router takes an event. At `OutOfMemory` it is as it was.
fn step_at<K: Keeping>(
    routers: &mut Vec<Router<K>>,
    router: usize,
    event: NodeEvent,
) -> Result<Reply, OutOfMemory>
    requires there { router < length routers.old.items }
    requires fits { IfSome (nth routers.old.items router) (λ r. Fits r event) }
    ensures state { OnOk result (IfSome (nth routers.old.items router) (λ r. routers.new.items
        ≡ with_nth routers.old.items router (step given r (event_of r event)).router)) }
    ensures reply { IfOk result (λ reply. IfSome (nth routers.old.items router) (λ r.
        Answers (step given r (event_of r event)).router (place_of (event_of r event))
        (step given r (event_of r event)).reply reply)) }
    ensures shapes { shapes_of routers.new.items ≡ shapes_of routers.old.items }
    ensures err { OnErr result (routers.new.items ≡ routers.old.items) }
{
    step_bonds();
    routers[router].step(event)
}

/// What a router sends in a boot on a link joins what was sent: past the limit the first of it.
fn post(
    sent: &mut Vec<SentDatagram>,
    sender: usize,
    boot: u32,
    changes: Changes,
    link: usize,
    items: Vec<Octets>,
) -> Result<(), LabFault>
    requires few { length sent.old.items ≤ 262144 }
    requires small { AreSmall sent.old.items }
    ensures ok { OnOk result (sent.new.items
        ≡ sent.old.items ++ map (sent_by sender boot changes link) items.items) }
    ensures cause { IfErr result (StopCause
        (sent.old.items ++ map (sent_by sender boot changes link) items.items) sent.new.items) }
    ensures few { length sent.new.items ≤ 262144 }
    ensures small { AreSmall sent.new.items }
{
    let room = SENT_LIMIT - sent.len();
    let past = items.len() > room;
    let mut kept = items;
    kept.truncate(room);
    post_all(sent, sender, boot, changes, link, kept)?;
    if past {
        return Err(LabFault::Limit(LimitName::Datagrams));
    }
    Ok(())
}

/// All of what a router sends in a boot on a link joins what was sent. It answers `OutOfMemory`
/// alone.
fn post_all(
    sent: &mut Vec<SentDatagram>,
    sender: usize,
    boot: u32,
    changes: Changes,
    link: usize,
    items: Vec<Octets>,
) -> Result<(), OutOfMemory>
    requires { AreSmall sent.old.items }
    ensures ok { OnOk result (sent.new.items
        ≡ sent.old.items ++ map (sent_by sender boot changes link) items.items) }
    ensures few { length sent.new.items ≤ length sent.old.items + length items.items }
    ensures small { AreSmall sent.new.items }
{
    for octets in items {
        octets_law(octets.as_slice());
        let datagram = SentDatagram {
            sender,
            boot,
            changes,
            link,
            octets,
        };
        match sent.push(datagram) {
            Ok(()) => {}
            Err(_) => return Err(OutOfMemory),
        }
    }
    Ok(())
}

/// A router restarts in its next boot. At `OutOfMemory` it is as it was.
pub(crate) fn restart_at<K: Keeping>(
    routers: &mut Vec<Router<K>>,
    router: usize,
) -> Result<(), OutOfMemory>
    requires there { router < length routers.old.items }
    requires boot { boot_of (nth routers.old.items router) < 16777215 }
    ensures state { OnOk result (IfSome (nth routers.old.items router) (λ r. routers.new.items
        ≡ with_nth routers.old.items router (restarted r))) }
    ensures shapes { shapes_of routers.new.items ≡ shapes_of routers.old.items }
    ensures err { OnErr result (routers.new.items ≡ routers.old.items) }
{
    let old = &routers[router];
    let fresh = old.restarted(old.boot() + 1)?;
    put_at(routers, router, fresh);
    Ok(())
}

/// The event in which a router takes octets on a circuit, counted from 1.
pub(crate) fn taking_at<K: Keeping>(
    routers: &[Router<K>],
    router: usize,
    circuit: u8,
    octets: Octets,
) -> NodeEvent
    requires there { router < length routers.now }
    requires circuit { IfSome (nth routers.now router) (λ r. IsThere r circuit) }
    ensures fits { IfSome (nth routers.now router) (λ r. Fits r result) }
    ensures event { IfSome (nth routers.now router) (λ r. event_of r result
        ≡ taking r (circuit - 1) octets) }
{
    reading_law();
    let opened = routers[router].desk().open(circuit, octets);
    NodeEvent::Take(opened)
}
