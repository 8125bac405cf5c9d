//! What a router hears in a datagram that was sent: the event, and the range of a CSNP in which nothing sets a flag.
ghost use Rattle.std.specs.Prelude.{◌≡◌, ℕ, ◌-◌, ◌<◌, ◌≤◌, length, true, not, Some, IfSome, IfOk};
ghost use Rattle.isis_base.specs.Identifiers.{lsp_number};
ghost use Rattle.isis_pdu.specs.Views.{pdu_view};
ghost use Rattle.isis_pdu.specs.Layout.{kind_of};
ghost use Rattle.model_router.specs.Both.{at};
ghost use Rattle.model_router.specs.Events as event;
ghost use Rattle.model_router.specs.Places.{nth};
ghost use Rattle.model_router.specs.Routers.{Circuit as ModelCircuit, book_of};
ghost use Rattle.model_datagram.specs.Reading.{message};
ghost use Rattle.model_datagram.specs.Tests.{has_number};
ghost use Rattle.flag_sync.specs.BookStates.{book_of as book_in};
ghost use Rattle.flag_sync.specs.Heard.{entries_of};
ghost use Rattle.router_desk.specs.Desks as desk;
ghost use Rattle.router_desk.specs.Desks.{desk_of};
ghost use Rattle.router_desk.specs.Opening.{envelope_of, message_of as opened_message, IsOpenedBy};
ghost use Rattle.router_desk.specs.Table.{is_run};
ghost use Rattle.router_desk.specs.Heard.{message_of};
ghost use Rattle.router_core.specs.Events.{event_of, Fits, IsThere};
ghost use Rattle.model_network.specs.Runs.{taking};
ghost use Rattle.model_network.specs.Takings.{would_flag_any as would_flag_list};
ghost use Rattle.network_lab.specs.LabTakings.{IsHeard};
ghost use Rattle.network_lab.specs.Hearing as hears;
ghost use Rattle.network_lab.specs.Hearing.{range_view, is_unflagged, IsSnpRun};

use crate::heard_range::{CsnpRange, HeardRange};
use crate::network::Network;
use crate::sent::{Changes, SentDatagram};
use flag_sync::Book;
use isis_base::{CircuitKind, Level, LspEntry, LspId, OutOfMemory};
use isis_pdu::Pdu;
use lab_facts::SweepKey;
use router_core::{Keeping, NodeEvent, Router};
use router_desk::laws::{passed_law, reading_law};
use router_desk::{Heard, Opened, Seen, hear};
use std::alloc::Global;

/// The event in which a router takes a datagram, and the range that it hears, if any.
#[derive(Drop)]
pub(crate) struct Hearing {
    pub(crate) event: NodeEvent,
    pub(crate) heard: Option<HeardRange>,
}

impl<K: Keeping> Network<K> {
    /// What a router hears in a datagram on its circuit of the datagram's link; the datagram and the circuit are
    /// counted from 1.
    pub(crate) fn hearing(
        &self,
        number: usize,
        router: usize,
        circuit: u8,
    ) -> Result<Hearing, OutOfMemory>
        requires there { router < length self.now.seen.routers }
        requires circuit { IfSome (nth self.now.seen.routers router) (λ r. IsThere r circuit) }
        requires number { 1 ≤ number }
        requires sent { number - 1 < length self.now.seen.sent }
        ensures fits { IfOk result (λ h. IfSome (nth self.now.seen.routers router)
            (λ r. Fits r h.event)) }
        ensures event { IfOk result (λ h. IfSome (nth self.now.seen.routers router) (λ r.
            IfSome (nth self.now.seen.sent (number - 1)) (λ d.
            event_of r h.event ≡ taking r (circuit - 1) d.octets))) }
        ensures heard { IfOk result (λ h. IfSome (nth self.now.seen.routers router) (λ r.
            IfSome (nth self.now.seen.sent (number - 1)) (λ d.
            IsHeard router (circuit - 1) r d h.heard))) }
    {
        let datagram = &self.sent[number - 1];
        heard_by(self.alloc, &self.routers[router], router, circuit, datagram)
    }
}

/// What a router hears in a datagram on a circuit, counted from 1.
fn heard_by<K: Keeping>(
    alloc: Global,
    r: &Router<K>,
    router: usize,
    circuit: u8,
    datagram: &SentDatagram,
) -> Result<Hearing, OutOfMemory>
    requires { IsThere r.now circuit }
    ensures fits { IfOk result (λ h. Fits r.now h.event) }
    ensures event { IfOk result (λ h. event_of r.now h.event
        ≡ taking r.now (circuit - 1) datagram.now.octets) }
    ensures heard { IfOk result (λ h. IsHeard router (circuit - 1) r.now datagram.now h.heard) }
{
    reading_law();
    let octets = datagram.octets.copy()?;
    let opened = r.desk().open(circuit, octets);
    let range = unflagged_in(alloc, r, &opened)?;
    let heard = at_moment(r, router, datagram, range);
    let event = NodeEvent::Take(opened);
    Ok(Hearing { event, heard })
}

/// A range with the moment at which a router hears it in a datagram.
fn at_moment<K: Keeping>(
    r: &Router<K>,
    router: usize,
    datagram: &SentDatagram,
    range: Option<CsnpRange>,
) -> Option<HeardRange>
    ensures { result ≡ hears.at_moment router r.now datagram.now range }
{
    let CsnpRange { level, first, last } = range?;
    let key = SweepKey {
        link: datagram.link,
        level,
        member: router,
        sender: datagram.sender,
        boot: r.boot(),
        changes: r.changes(level),
        sent_boot: datagram.boot,
        sent_changes: count_of(datagram.changes, level),
    };
    Some(HeardRange { key, first, last })
}

/// The count of a level.
fn count_of(changes: Changes, level: Level) -> u64
    ensures { result ≡ hears.count_of changes level }
{
    match level {
        Level::One => changes.one,
        Level::Two => changes.two,
    }
}

/// The range of a CSNP on a LAN in which nothing would set a flag (ISO 10589 7.3.15.2). Of CSNPs on LANs alone
/// anything is decoded a second time.
fn unflagged_in<K: Keeping>(
    alloc: Global,
    r: &Router<K>,
    opened: &Opened,
) -> Result<Option<CsnpRange>, OutOfMemory>
    requires there { IsThere r.now opened.now.circuit }
    requires opened { IsOpenedBy (desk_of r.now.config r.now.circuits) opened.now }
    ensures { IfOk result (λ range. IfSome (nth r.now.circuits (opened.now.circuit - 1)) (λ c.
        range_view range ≡ hears.unflagged_range r.now c
        (opened_message r.now.config.system opened.now.seen))) }
{
    passed_law();
    if !is_lan(r.desk().kind(opened.circuit())) {
        return Ok(None);
    }
    match opened.seen() {
        Ok(seen) => unflagged_pdu(alloc, r, &seen),
        Err(_) => Ok(None),
    }
}

/// Whether a circuit is a LAN.
fn is_lan(kind: CircuitKind) -> bool
    ensures { result ≡ desk.is_lan kind }
{
    match kind {
        CircuitKind::PointToPoint => false,
        CircuitKind::Lan => true,
    }
}

/// The same of a PDU on a LAN.
fn unflagged_pdu<K: Keeping>(
    alloc: Global,
    r: &Router<K>,
    seen: &Seen<'_>,
) -> Result<Option<CsnpRange>, OutOfMemory>
    requires run { is_run r.now.config.runs (kind_of (pdu_view seen.now.pdu)) ≡ true }
    ensures { IfOk result (λ range. (c : ModelCircuit) → c.lan ≡ true
        → range_view range ≡ hears.unflagged_range r.now c (message r.now.config.system
        (envelope_of seen.now.from) (pdu_view seen.now.pdu) seen.now.octets.now)) }
{
    match seen.pdu {
        Pdu::Csnp { .. } => unflagged_csnp(alloc, r, seen),
        Pdu::PointHello { .. } => Ok(None),
        Pdu::LanHello { .. } => Ok(None),
        Pdu::Lsp { .. } => Ok(None),
        Pdu::Psnp { .. } => Ok(None),
    }
}

/// The same of a CSNP.
fn unflagged_csnp<K: Keeping>(
    alloc: Global,
    r: &Router<K>,
    seen: &Seen<'_>,
) -> Result<Option<CsnpRange>, OutOfMemory>
    requires number { has_number (pdu_view seen.now.pdu) ≡ true }
    requires run { IsSnpRun r.now (message r.now.config.system
        (envelope_of seen.now.from) (pdu_view seen.now.pdu) seen.now.octets.now) }
    ensures { IfOk result (λ range. (c : ModelCircuit) → c.lan ≡ true
        → range_view range ≡ hears.unflagged_range r.now c (message r.now.config.system
        (envelope_of seen.now.from) (pdu_view seen.now.pdu) seen.now.octets.now)) }
{
    match hear(alloc, r.desk().system(), seen) {
        Ok(heard) => Ok(unflagged_heard(r, &heard)),
        Err(error) => Err(error),
    }
}

/// The same of what a router hears on a LAN.
fn unflagged_heard<K: Keeping>(r: &Router<K>, heard: &Heard<'_>) -> Option<CsnpRange>
    requires run { IsSnpRun r.now (message_of heard.now) }
    ensures { (c : ModelCircuit) → c.lan ≡ true
        → range_view result ≡ hears.unflagged_range r.now c (message_of heard.now) }
{
    match heard {
        Heard::PointHello(_) => None,
        Heard::LanHello(_, _) => None,
        Heard::Lsp { .. } => None,
        Heard::Snp {
            level,
            from: _,
            source: _,
            range,
            entries,
        } => match *range {
            Some((first, last)) => unflagged_range(r, *level, first, last, entries.as_slice()),
            None => None,
        },
    }
}

/// A range of a level, where neither that nor the entries would set a flag.
fn unflagged_range<K: Keeping>(
    r: &Router<K>,
    level: Level,
    first: LspId,
    last: LspId,
    entries: &[LspEntry],
) -> Option<CsnpRange>
    requires run { at r.now.config.runs level ≡ true }
    ensures { (c : ModelCircuit) (from : event.Envelope) (source : ℕ) → c.lan ≡ true
        → range_view result ≡ hears.unflagged_range r.now c (event.SnpHeard level from source
        (Some (lsp_number first, lsp_number last)) (entries_of entries.now)) }
{
    let book = r.book(level)?;
    if would_flag(book, first, last, entries) {
        return None;
    }
    Some(CsnpRange { level, first, last })
}

/// Whether entries or a range would set a flag (ISO 10589 7.3.15.2).
fn would_flag(book: &Book, first: LspId, last: LspId, entries: &[LspEntry]) -> bool
    ensures { not result ≡ is_unflagged (book_in book.now) (lsp_number first) (lsp_number last)
        (entries_of entries.now) }
{
    any_flags(book, entries) || book.would_flag_range(first, last, entries)
}

/// Whether an entry would set a flag.
fn any_flags(book: &Book, entries: &[LspEntry]) -> bool
    ensures { result ≡ would_flag_list (book_in book.now) (entries_of entries.now) }
{
    let mut left = entries;
    while let [entry, more @ ..] = left {
        if book.would_flag(entry) {
            return true;
        }
        left = more;
    }
    false
}
