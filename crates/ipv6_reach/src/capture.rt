//! A captured database.
ghost use Rattle.std.specs.Prelude.{◌≡◌, ◌<◌, ◌≤◌, ◌^◌, ◌↔◌, ◌==◌, nat_lt, ℕ, [], true, Some, None, take, drop, length, Ok, Err, IsTrue, IfOk, IfErr, OnErr, OnOk};
ghost use Rattle.std.specs.List.{AllByRecursion};
ghost use Rattle.lsp_view.specs.Views.{IsShort, own_node, rows_in, overloaded_in};
ghost use Rattle.spf_tree.specs.Graphs.{AreUsable};
ghost use Rattle.isis_base.specs.Identifiers.{lsp_number};
ghost use Rattle.isis_base.specs.Keys.{rank};
ghost use Rattle.isis_pdu.specs.Views.{pdu_view};
ghost use Rattle.isis_pdu.specs.Decoded.{decoded};
ghost use Rattle.lsp_store.specs.Maps.{find, put};
ghost use Rattle.lsp_store.specs.declared.entry.Entry.{Entry};
ghost use Rattle.lsp_store.specs.declared.fault.StoreFault.TheVariants as fault;
ghost use Rattle.ipv6_reach.specs.declared.took.Took.TheVariants.{Kept};
ghost use Rattle.ipv6_reach.specs.Captured.{CapturedOf, head_of, is_same, rank_of, held_rank, is_whole, took_lsp, took_of, IsEntryOf, KeepsBy, IsFullFor, IsFullBy};

use crate::head::Head;
use crate::took::Took;
use isis_base::numbers::ENTRY_LIMIT;
use isis_base::{Key, Level, LspId, NodeId, Octets, Order3, OutOfMemory, SystemId, newer};
use isis_pdu::{Pdu, decode};
use iso_checksum::holds;
use lsp_store::{Entry, Store, StoreFault};
use lsp_view::laws::rows_law;
use lsp_view::{overloaded, rows};
use spf_tree::{Graph, usable};
use std::alloc::Global;
use std::marker::Model;

/// The LSPs of one level that were taken: of each LSP ID the newest, the first of equals.
#[derive(Drop)]
pub struct Capture {
    alloc: Global,
    level: Level,
    store: Store,
}

impl Model for Capture {
    ghost use Rattle.ipv6_reach.specs.Captured.{CapturedOf};

    ghost Value = { CapturedOf };

    ghost view = { λ c. record { level = c.level; entries = c.store.entries } };

    ghost use Rattle.std.specs.List.{AllByRecursion};
    ghost use Rattle.lsp_view.specs.Views.{IsShort};

    ghost invariant = { λ c. AllByRecursion IsShort c.store.entries };
}

/// The header of an LSP; none of another PDU.
fn head_of(pdu: &Pdu) -> Option<Head>
    ensures { result ≡ head_of (pdu_view pdu.now) }
{
    match *pdu {
        Pdu::Lsp {
            level,
            lifetime,
            id,
            number,
            checksum,
            flags,
            ..
        } => Some(Head {
            level,
            lifetime,
            id,
            number,
            checksum,
            flags,
        }),
        Pdu::LanHello { .. } => None,
        Pdu::PointHello { .. } => None,
        Pdu::Csnp { .. } => None,
        Pdu::Psnp { .. } => None,
    }
}

/// Whether two levels are one.
fn is_same(one: Level, other: Level) -> bool
    ensures { result ≡ is_same one other }
{
    match (one, other) {
        (Level::One, Level::One) => true,
        (Level::One, Level::Two) => false,
        (Level::Two, Level::One) => false,
        (Level::Two, Level::Two) => true,
    }
}

/// Whether a checksum is there and holds; of a purge it isn't looked at.
fn is_whole(head: &Head, octets: &[u8]) -> bool
    requires { 12 ≤ length octets.now }
    ensures { result ≡ is_whole head.now octets.now }
{
    head.lifetime == 0 || (head.checksum != 0 && holds(&octets[12..]))
}

/// The key of an LSP whose number isn't 0.
fn key_of(head: &Head) -> Key
    requires { 0 < head.now.number }
    ensures { rank (Some result) ≡ rank_of head.now }
{
    Key {
        number: head.number,
        purged: head.lifetime == 0,
    }
}

/// Whether an LSP is newer than what is held of its ID.
fn is_newer(store: &Store, head: &Head) -> bool
    requires { 0 < head.now.number }
    ensures { result ≡ nat_lt (held_rank store.now.entries head.now.id) (rank_of head.now) }
{
    let held = match store.get(head.id) {
        Some(entry) => entry.key,
        None => None,
    };
    match newer(Some(key_of(head)), held) {
        Order3::Newer => true,
        Order3::Same => false,
        Order3::Older => false,
    }
}

/// The octets, owned.
fn owned(alloc: Global, octets: &[u8]) -> Result<Octets, StoreFault>
    ensures ok { IfOk result (λ copy. copy ≡ octets.now) }
    ensures err { IfErr result (λ f. f ≡ fault.OutOfMemory) }
{
    let mut copy = Octets::new(alloc);
    match copy.extend(octets) {
        Ok(()) => Ok(copy),
        Err(_) => Err(StoreFault::OutOfMemory),
    }
}

/// Whether there is no room for an LSP ID.
fn is_full_for(store: &Store, id: LspId) -> bool
    ensures { IsTrue result
        ↔ ((find store.now.entries (lsp_number id) ≡ None) × (65536 ≤ length store.now.entries)) }
{
    if store.len() < ENTRY_LIMIT {
        return false;
    }
    match store.get(id) {
        Some(_) => false,
        None => true,
    }
}

/// The entry of an LSP of these octets.
fn entry_of(head: &Head, octets: Octets) -> Entry
    requires { 0 < head.now.number }
    ensures { IsEntryOf result head.now octets }
{
    Entry {
        key: Some(key_of(head)),
        checksum: head.checksum,
        flags: head.flags,
        left: head.lifetime,
        octets,
    }
}

/// Puts an LSP in the place of what is held of its ID.
fn keep(alloc: Global, store: &mut Store, head: &Head, octets: &[u8]) -> Result<(), StoreFault>
    requires number { 0 < head.now.number }
    requires short { length octets.now ≤ 65535 }
    ensures short { AllByRecursion IsShort store.old.entries
        → AllByRecursion IsShort store.new.entries }
    ensures ok { OnOk result ((entry : Entry) × IsEntryOf entry head.now octets.now
        × (store.new.entries ≡ put store.old.entries head.now.id entry)) }
    ensures full { (result ≡ Err fault.Full)
        ↔ ((find store.old.entries (lsp_number head.now.id) ≡ None)
        × (65536 ≤ length store.old.entries)) }
    ensures err { OnErr result (store.new ≡ store.old) }
{
    if is_full_for(store, head.id) {
        return Err(StoreFault::Full);
    }
    let copy = match owned(alloc, octets) {
        Ok(copy) => copy,
        Err(_) => return Err(StoreFault::OutOfMemory),
    };
    match store.put(head.id, entry_of(head, copy)) {
        Ok(_) => Ok(()),
        Err(_) => Err(StoreFault::OutOfMemory),
    }
}

/// Where a capture takes its memory.
pub fn allocator(capture: &Capture) -> Global {
    capture.alloc
}

/// The LSPs of a capture.
pub fn store(capture: &Capture) -> &Store
    ensures { result.now.entries ≡ capture.now.entries }
{
    &capture.store
}

impl Capture {
    /// The capture of a level without LSPs. It takes no memory.
    pub fn new(alloc: Global, level: Level) -> Capture
        ensures { result ≡ record { level = level; entries = [] } }
    {
        Capture {
            alloc,
            level,
            store: Store::new(alloc),
        }
    }

    /// What becomes of an LSP.
    fn take_lsp(&mut self, head: &Head, octets: &[u8]) -> Result<Took, StoreFault>
        requires long { 12 ≤ length octets.now }
        requires short { length octets.now ≤ 65535 }
        ensures took { IfOk result (λ took. took ≡ took_lsp self.old octets.now (Some head.now)) }
        ensures kept { result ≡ Ok Kept → (entry : Entry) × IsEntryOf entry head.now octets.now
            × (self.new ≡ record self.old { entries = put self.old.entries head.now.id entry }) }
        ensures other { IfOk result (λ took. (took ≡ Kept → ⊥) → self.new ≡ self.old) }
        ensures full { result ≡ Err fault.Full
            → (took_lsp self.old octets.now (Some head.now) ≡ Kept)
            × IsFullFor self.old head.now }
        ensures room { result ≡ Ok Kept → IsFullFor self.old head.now → ⊥ }
        ensures err { OnErr result (self.new ≡ self.old) }
    {
        if !is_same(self.level, head.level) {
            return Ok(Took::NotLsp);
        }
        if head.number == 0 {
            return Ok(Took::Zero);
        }
        if !is_whole(head, octets) {
            return Ok(Took::Checksum);
        }
        if !is_newer(&self.store, head) {
            return Ok(Took::NotNewer);
        }
        match keep(self.alloc, &mut self.store, head, octets) {
            Ok(()) => Ok(Took::Kept),
            Err(fault) => Err(fault),
        }
    }

    /// Takes the LSP that octets begin with. At `Full` and `OutOfMemory` nothing changes; `Full` comes exactly where the LSP
    /// would be kept, its ID isn't held, and 65,536 are.
    pub fn take(&mut self, octets: &[u8]) -> Result<Took, StoreFault>
        ensures took { IfOk result (λ took. took ≡ took_of self.old octets.now) }
        ensures kept { result ≡ Ok Kept
            → KeepsBy self.old self.new octets.now (decoded octets.now) }
        ensures other { IfOk result (λ took. (took ≡ Kept → ⊥) → self.new ≡ self.old) }
        ensures full { result ≡ Err fault.Full → (took_of self.old octets.now ≡ Kept)
            × IsFullBy self.old (decoded octets.now) }
        ensures room { result ≡ Ok Kept → IsFullBy self.old (decoded octets.now) → ⊥ }
        ensures err { OnErr result (self.new ≡ self.old) }
    {
        let (pdu, end) = match decode(octets) {
            Ok(found) => found,
            Err(fault) => return Ok(Took::Pdu(fault)),
        };
        match head_of(&pdu) {
            Some(head) => self.take_lsp(&head, &octets[..end]),
            None => Ok(Took::NotLsp),
        }
    }

    /// How many rows there are, at most. It does nothing.
    fn few_rows(&self)
        ensures { length (rows_in self.now.entries) < 2 ^ 32 }
    {
        rows_law();
        let _ = self.store.len();
    }

    /// The graph of the rows that may be walked from a system (ISO 10589 7.2.8).
    pub fn graph(&self, root: SystemId) -> Result<Graph, OutOfMemory>
        ensures { IfOk result (λ graph. AreUsable (rows_in self.now.entries)
            (overloaded_in self.now.entries) (own_node root) graph) }
    {
        self.few_rows();
        let rows = match rows(self.alloc, &self.store) {
            Ok(rows) => rows,
            Err(error) => return Err(error),
        };
        let nodes = match overloaded(self.alloc, &self.store) {
            Ok(nodes) => nodes,
            Err(error) => return Err(error),
        };
        let root = NodeId {
            system: root,
            pseudonode: 0,
        };
        usable(self.alloc, rows.as_slice(), nodes.as_slice(), root)
    }
}
