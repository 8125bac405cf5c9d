//! One level's database with its flags.
ghost use Rattle.std.specs.Prelude.{◌≡◌, ◌≤◌, ◌<◌, ◌+◌, length, max, IfOk, IfErr, OnOk, OnErr, IsOk, Err, ℕ, [], Some, if◌then◌else◌};
ghost use Rattle.model_router.specs.Places.{nth};
ghost use Rattle.model_router.specs.Sets.{has, with_one};
ghost use Rattle.lsp_store.specs.declared.fault.StoreFault.TheVariants.{Full};
ghost use Rattle.lsp_store.specs.Databases.{ReserveCause};
ghost use Rattle.flag_sync.specs.Circuits.{is_point};
ghost use Rattle.flag_sync.specs.BookStates.{no_entries, AreBeside};

use crate::bits::with_bit;
use crate::flag_row::FlagRow;
use crate::flags::Flags;
use isis_base::numbers::ENTRY_LIMIT;
use isis_base::{CircuitKind, OutOfMemory};
use lsp_store::{Pages, Store, StoreFault};
use std::alloc::Global;
use std::marker::Model;

/// One level's database with its SRM and SSN flags (ISO 10589 7.3.15).
#[derive(Drop)]
pub struct Book {
    pub(crate) alloc: Global,
    pub(crate) store: Store,
    pub(crate) flags: Flags,
    pub(crate) opened: u64,
    pub(crate) points: u64,
    pub(crate) circuits: usize,
}

impl Model for Book {
    ghost use Rattle.flag_sync.specs.BookStates.{BookState};

    ghost Value = { BookState };

    ghost use Rattle.flag_sync.specs.BookStates.{IsBook};

    ghost view = { λ b. record {
      store = b.store;
      rows = b.flags.entries;
      opened = b.opened;
      points = b.points;
      circuits = b.circuits;
    } };

    ghost invariant = { λ b. IsBook b.store.entries b.flags.entries b.store.spare b.flags.spare
        b.circuits };
}

impl Book {
    /// The book without entries, of circuits of these kinds, none of which is open.
    pub fn new(alloc: Global, kinds: &[CircuitKind]) -> Result<Book, OutOfMemory>
        requires { length kinds.now ≤ 64 }
        ensures store { IfOk result (λ book. book.store ≡ no_entries) }
        ensures rows { IfOk result (λ book. book.rows ≡ []) }
        ensures opened { IfOk result (λ book. book.opened ≡ 0) }
        ensures points { IfOk result (λ book. (place : ℕ)
            → has book.points place ≡ is_point (nth kinds.now place)) }
        ensures circuits { IfOk result (λ book. book.circuits ≡ length kinds.now) }
    {
        let book = Book {
            alloc,
            store: Store::new(alloc),
            flags: Flags::new(alloc),
            opened: 0,
            points: points_of(kinds),
            circuits: kinds.len(),
        };
        Ok(book)
    }

    /// The database, lent.
    pub fn store(&self) -> &Store
        ensures { result.now ≡ self.now.store }
    {
        &self.store
    }

    /// The rows of flags, lent: one for each entry.
    pub fn flag_pages(&self) -> &Pages<FlagRow>
        ensures rows { result.now.entries ≡ self.now.rows }
        ensures beside { AreBeside self.now.store.entries result.now.entries }
    {
        self.flags.pages()
    }

    /// For how many more entries memory is taken already, their flags included.
    pub fn spare(&self) -> usize
        ensures { result ≡ self.now.store.spare }
    {
        self.store.spare()
    }

    /// Takes the memory for so many more entries, flags included. `Full` exactly where 65,536
    /// would be passed.
    pub fn reserve(&mut self, more: usize) -> Result<(), StoreFault>
        ensures ok { OnOk result (self.new ≡ record self.old {
          store = record self.old.store { spare = max self.old.store.spare more };
        }) }
        ensures err { OnErr result (self.new ≡ self.old) }
        ensures full { 65536 < length self.old.store.entries + more → result ≡ Err Full }
        ensures cause { IfErr result (ReserveCause self.old.store more) }
    {
        if more <= self.store.spare() {
            return self.store.reserve(more);
        }
        if more > ENTRY_LIMIT - self.store.len() {
            return Err(StoreFault::Full);
        }
        match self.flags.reserve(more) {
            Ok(()) => {}
            Err(OutOfMemory) => return Err(StoreFault::OutOfMemory),
        }
        self.store.reserve(more)
    }

    /// An equal book, with as many entries spare.
    pub fn copy(&self) -> Result<Book, OutOfMemory>
        ensures { IfOk result (λ copy. copy ≡ self.now) }
    {
        let store = self.store.copy()?;
        let flags = self.flags.copy()?;
        Ok(Book {
            alloc: self.alloc,
            store,
            flags,
            opened: self.opened,
            points: self.points,
            circuits: self.circuits,
        })
    }
}

/// The circuits that are point-to-point.
fn points_of(kinds: &[CircuitKind]) -> u64
    requires { length kinds.now ≤ 64 }
    ensures { (place : ℕ) → has result place ≡ is_point (nth kinds.now place) }
{
    let mut points = 0u64;
    let mut place = 0usize;
    while place < kinds.len() {
        points = with_kind(points, place as u8, kinds[place]);
        place += 1;
    }
    points
}

/// The set with a circuit, where that is point-to-point.
fn with_kind(points: u64, place: u8, kind: CircuitKind) -> u64
    requires { place < 64 }
    ensures { result ≡ (if is_point (Some kind) then with_one points place else points) }
{
    match kind {
        CircuitKind::PointToPoint => with_bit(points, place),
        CircuitKind::Lan => points,
    }
}
