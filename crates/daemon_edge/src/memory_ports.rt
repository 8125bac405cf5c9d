//! Ports in memory.
ghost use Rattle.std.specs.Prelude.{◌≡◌, ◌+◌, ◌-◌, ◌<◌, ◌≤◌, ◌↔◌, ℕ, List, [], ◌∷◌, ◌++◌, length, vec_len, vec_capacity, slice_get, map, take, drop, true, false, None, IfOk, OnErr, IsErr, MatchOption};
ghost use Rattle.std.specs.Option.{option_map};
ghost use Rattle.isis_edge.specs.Faults.{one_more, Rose};
ghost use Rattle.isis_edge.specs.Memory.{IsToFail};
ghost use Rattle.daemon_edge.specs.Closings.{opened_at};
ghost use Rattle.daemon_edge.specs.Kept.{has_room};
ghost use Rattle.daemon_edge.specs.Ports.{Adds, Fits, got, OnFailed, OnNotSent, IsFresh};

use crate::faults::count_fault;
use crate::kept::Kept;
use crate::place::CircuitPlace;
use crate::port::{Offered, Port, Taken};
use crate::ports::{Ports, Refused};
use isis_base::{Octets, OutOfMemory};
use isis_edge::Calls;
use note_list::{NoteList, PieceList};
use std::alloc::Global;
use std::mem;
use std::net::Net;
use std::time::Clock;

/// How many closed ports are kept (own).
const CLOSED: usize = 64;

/// What a port in memory gives, what it has room for, and which of its calls fail.
#[derive(Drop, Debug)]
pub struct Slot {
    list: Vec<Octets>,
    kept: Kept,
    failing: Vec<u64>,
    ghost fresh: { kept.datagrams ≡ [] },
}

impl Slot {
    /// Nothing to give, no room, and no call that fails.
    fn none(alloc: Global) -> Slot
        ensures { (result.list.items ≡ []) × (result.kept ≡ record { datagrams = []; room = 0 })
            × (result.failing.items ≡ []) }
    {
        Slot {
            list: Vec::new(alloc),
            kept: Kept::none(alloc),
            failing: Vec::new(alloc),
        }
    }

    /// This list to give, room for so many offers of together so many octets, and these calls that fail.
    fn of(
        alloc: Global,
        list: Vec<Octets>,
        failing: &[u64],
        room: usize,
    ) -> Result<Slot, OutOfMemory>
        ensures { IfOk result (λ slot. (slot.list.items ≡ list.items)
            × (slot.failing.items ≡ failing.now)
            × (slot.kept ≡ record { datagrams = []; room = room })) }
    {
        Ok(Slot {
            list,
            kept: Kept::with_room(alloc, room)?,
            failing: Vec::from_slice(alloc, failing)?,
        })
    }
}

/// A port that gives a list, and keeps what it is offered while that fits its room. Exactly the calls whose numbers it
/// was given fail.
#[derive(Drop)]
pub struct MemoryPort {
    circuit: u8,
    place: CircuitPlace,
    list: Vec<Octets>,
    at: usize,
    kept: Kept,
    over: bool,
    given: PieceList<u8>,
    offered: PieceList<u8>,
    calls: Calls,
    asked: u64,
    ghost within: { at ≤ vec_len list },
}

impl Port for MemoryPort {
    ghost use Rattle.daemon_edge.specs.MemoryPorts.{ready_at, Gives};

    ghost opening = { λ p. opened_at p.circuit p.place };

    ghost given = { λ p. p.given.pieces };

    ghost offered = { λ p. p.offered.pieces };

    ghost asked = { λ p. p.asked };

    ghost faults = { λ p. p.calls.faults };

    fn take<R: Clock>(&mut self, _rt: &R, buffer: &mut [u8]) -> Taken
        ensures opening { opened_at self.new.circuit self.new.place
            ≡ opened_at self.old.circuit self.old.place }
        ensures ready { Gives (ready_at self.old) (ready_at self.new) result buffer.new }
        ensures fits { Fits result buffer.new }
        ensures given { Adds self.old.given.pieces self.new.given.pieces (got result buffer.new) }
        ensures offered { Adds self.old.offered.pieces self.new.offered.pieces [] }
        ensures asked { self.new.asked ≡ one_more self.old.asked }
        ensures later { self.old.calls.faults ≤ self.new.calls.faults }
        ensures cause { OnFailed result (Rose self.old.calls.faults self.new.calls.faults) }
        ensures fails { (result ≡ Taken.Failed)
            ↔ IsToFail self.old.calls.failing.items self.old.calls.made }
    {
        self.asked = self.asked.saturating_add(1);
        if self.calls.next_fails() {
            count_fault(&mut self.calls);
            return Taken::Failed;
        }
        if self.at == self.list.len() {
            return Taken::NotYet;
        }
        let count = hand_over(&mut self.list, self.at, buffer);
        self.at += 1;
        self.given.push(&buffer[..count]);
        Taken::Got(count)
    }

    fn offer(&mut self, datagram: &[u8]) -> Offered
        ensures opening { opened_at self.new.circuit self.new.place
            ≡ opened_at self.old.circuit self.old.place }
        ensures given { Adds self.old.given.pieces self.new.given.pieces [] }
        ensures offered { Adds self.old.offered.pieces self.new.offered.pieces (datagram.now ∷ []) }
        ensures asked { self.new.asked ≡ self.old.asked }
        ensures later { self.old.calls.faults ≤ self.new.calls.faults }
        ensures cause { OnNotSent result (Rose self.old.calls.faults self.new.calls.faults) }
        ensures fails { (result ≡ Offered.Failed)
            ↔ IsToFail self.old.calls.failing.items self.old.calls.made }
        ensures keeps { self.new.over ≡ false
            ↔ ((self.old.over ≡ false) × (has_room self.old.kept datagram.now ≡ true)) }
    {
        self.offered.push(datagram);
        if self.over || !self.kept.keep(datagram) {
            self.over = true;
        }
        if self.calls.next_fails() {
            count_fault(&mut self.calls);
            return Offered::Failed;
        }
        Offered::Sent
    }
}

/// Puts the datagram at a place into the front of a buffer, and cuts it there to what fits.
fn hand_over(list: &mut Vec<Octets>, place: usize, buffer: &mut [u8]) -> usize
    requires { place < vec_len list.old }
    ensures count { result ≤ length buffer.new }
    ensures same { vec_len list.new ≡ vec_len list.old }
    ensures ready { (d : List ℕ) × (drop place list.old.items ≡ d ∷ drop (place + 1) list.new.items)
        × (take result buffer.new ≡ take (length buffer.new) d) }
{
    cut_into(&mut list[place], buffer)
}

/// Puts a datagram into the front of a buffer, and cuts it to what fits.
fn cut_into(datagram: &mut Octets, buffer: &mut [u8]) -> usize
    ensures count { result ≤ length buffer.new }
    ensures given { datagram.new ≡ take result buffer.new }
    ensures cut { datagram.new ≡ take (length buffer.new) datagram.old }
{
    let count = datagram.len().min(buffer.len());
    datagram.truncate(count);
    buffer[..count].copy_from_slice(datagram.as_slice());
    count
}

/// What opens ports in memory, and keeps the first 64 that were closed.
#[derive(Drop)]
pub struct MemoryPorts {
    alloc: Global,
    slots: Vec<Slot>,
    calls: Calls,
    opened: u64,
    closed: Vec<MemoryPort>,
    told: NoteList<MemoryPort, ()>,
    ghost room: { 64 ≤ vec_capacity closed },
}

impl MemoryPorts {
    ghost use Rattle.daemon_edge.specs.MemoryPorts.{held_in, kept_of, slots_for};

    /// Circuit c's port gives the c-th of these lists in order. The openings of the numbers `refused` are refused; of
    /// one port the calls of the numbers `failing`, takes and offers counted together, fail. All counts are from 1. The
    /// room for `room` offers of together `room` octets is taken for each list, and for 64 closed ports: no later call
    /// wants memory. A circuit past the lists, and one that is opened again, has nothing to give, no room and no call
    /// that fails.
    pub fn new(
        alloc: Global,
        lists: Vec<Vec<Octets>>,
        refused: Vec<u64>,
        failing: Vec<u64>,
        room: usize,
    ) -> Result<MemoryPorts, OutOfMemory>
        ensures fresh { IfOk result (λ ports. (ports.opened ≡ 0) × (ports.closed.items ≡ [])
            × (ports.told.items ≡ [])) }
        ensures refused { IfOk result (λ ports. (ports.calls.failing.items ≡ refused.items)
            × (ports.calls.made ≡ 0) × (ports.calls.faults ≡ 0)) }
        ensures slots { IfOk result (λ ports. map held_in ports.slots.items
            ≡ slots_for failing.items room (map (λ list. list.items) lists.items)) }
    {
        let mut slots = Vec::new(alloc);
        for list in lists {
            match Slot::of(alloc, list, failing.as_slice(), room) {
                Ok(slot) => slots.push(slot)?,
                Err(error) => return Err(error),
            }
        }
        let closed = Vec::with_capacity(alloc, CLOSED)?;
        Ok(MemoryPorts {
            alloc,
            slots,
            calls: Calls {
                failing: refused,
                made: 0,
                faults: 0,
            },
            opened: 0,
            closed,
            told: NoteList::new(&()),
        })
    }

    /// What a circuit's port has; afterwards it has nothing.
    fn slot(&mut self, circuit: u8) -> Slot
        ensures slot { 1 ≤ circuit → MatchOption (slice_get self.old.slots.items (circuit - 1))
            ((result.list.items ≡ []) × (result.failing.items ≡ []) × (result.kept.room ≡ 0))
            (λ s. result ≡ s) }
        ensures others { self.new ≡ record self.old { slots = self.new.slots } }
    {
        let empty = Slot::none(self.alloc);
        let place = usize::from(circuit).wrapping_sub(1);
        match self.slots.get_mut(place) {
            Some(slot) => mem::replace(slot, empty),
            None => empty,
        }
    }

    /// The offer of that number, counted from 1, to the closed ports of a circuit; `None` exactly where none such is
    /// kept.
    pub fn offered(&self, circuit: u8, number: usize) -> Option<&[u8]>
        ensures zero { number ≡ 0 → result ≡ None }
        ensures offer { 1 ≤ number → option_map (λ datagram. datagram.now) result
            ≡ slice_get (kept_of circuit self.now.closed.items) (number - 1) }
    {
        if number == 0 {
            return None;
        }
        let mut left = number - 1;
        let mut rest = self.closed.as_slice();
        while let [port, more @ ..] = rest {
            if port.circuit == circuit {
                let count = port.kept.len();
                if left < count {
                    return port.kept.get(left);
                }
                left -= count;
            }
            rest = more;
        }
        None
    }
}

impl Ports for MemoryPorts {
    ghost use Rattle.daemon_edge.specs.MemoryPorts.{told_of};

    type Port = MemoryPort;

    ghost opened = { λ p. p.opened };

    ghost closed = { λ p. map told_of p.told.items };

    ghost faults = { λ p. p.calls.faults };

    fn open<R: Net>(
        &mut self,
        _rt: &R,
        circuit: u8,
        place: CircuitPlace,
    ) -> Result<MemoryPort, Refused>
        ensures opening { IfOk result (λ port. opened_at port.circuit port.place
            ≡ opened_at circuit place) }
        ensures fresh { IfOk result (λ port. IsFresh port.given.pieces port.offered.pieces port.asked) }
        ensures opened { IfOk result (λ port. self.new.opened ≡ one_more self.old.opened) }
        ensures refused { OnErr result (self.new.opened ≡ self.old.opened) }
        ensures closed { Adds (map told_of self.old.told.items) (map told_of self.new.told.items) [] }
        ensures later { self.old.calls.faults ≤ self.new.calls.faults }
        ensures cause { OnErr result (Rose self.old.calls.faults self.new.calls.faults) }
        ensures fails { IsErr result
            ↔ IsToFail self.old.calls.failing.items self.old.calls.made }
        ensures list { 1 ≤ circuit → IfOk result (λ port.
            MatchOption (slice_get self.old.slots.items (circuit - 1))
            ((port.list.items ≡ []) × (port.calls.failing.items ≡ []) × (port.kept.room ≡ 0))
            (λ s. (port.list.items ≡ s.list.items) × (port.calls.failing.items ≡ s.failing.items)
            × (port.kept ≡ s.kept))) }
    {
        if self.calls.next_fails() {
            count_fault(&mut self.calls);
            return Err(Refused);
        }
        self.opened = self.opened.saturating_add(1);
        let Slot {
            list,
            kept,
            failing,
        } = self.slot(circuit);
        Ok(MemoryPort {
            circuit,
            place,
            list,
            at: 0,
            kept,
            over: false,
            given: PieceList::new(),
            offered: PieceList::new(),
            calls: Calls {
                failing,
                made: 0,
                faults: 0,
            },
            asked: 0,
        })
    }

    fn close(&mut self, _circuit: u8, port: MemoryPort) {
        self.told.push(&port);
        if self.closed.len() >= CLOSED {
            drop(port);
            return;
        }
        self.closed.push(port).unwrap();
    }
}
