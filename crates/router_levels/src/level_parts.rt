//! One level of a router.
ghost use Rattle.std.specs.Prelude.{◌≡◌, ◌≤◌, length, List, IfOk, OnOk, OnErr};
ghost use Rattle.model_router.specs.Routers.{Circuit};
ghost use Rattle.model_router.specs.Starts.{empty_level, points_of};
ghost use Rattle.router_levels.specs.Views.{state_of, HasRoom, AreOfKinds};

use flag_sync::Book;
use isis_base::numbers::ENTRY_LIMIT;
use isis_base::{CircuitKind, OutOfMemory};
use lsp_fragments::OwnLsps;
use purge_ageing::LetGo;
use std::alloc::Global;
use std::marker::Model;

/// One level of a router: its database with flags, its own LSPs that are issued, and the LSP IDs
/// that it let go (ISO 10589 7.3.15, 7.3.6).
#[derive(Drop)]
pub struct LevelParts {
    pub(crate) book: Book,
    pub(crate) own: OwnLsps,
    pub(crate) gone: LetGo,
}

impl Model for LevelParts {
    ghost use Rattle.router_levels.specs.Views.{LevelView};

    ghost Value = { LevelView };

    ghost view = { λ l. record { book = l.book; own = l.own; gone = l.gone } };
}

impl LevelParts {
    /// A level at the start, of circuits of these kinds: nothing is held, issued or let go, and no
    /// circuit is open.
    pub fn new(alloc: Global, kinds: &[CircuitKind]) -> Result<LevelParts, OutOfMemory>
        requires { length kinds.now ≤ 64 }
        ensures state { IfOk result (λ level. (circuits : List Circuit)
            → AreOfKinds circuits kinds.now
            → state_of level ≡ empty_level (points_of 0 circuits)) }
        ensures circuits { IfOk result (λ level. level.book.circuits ≡ length kinds.now) }
    {
        let book = Book::new(alloc, kinds)?;
        let own = OwnLsps::new(alloc);
        let gone = LetGo::new(alloc)?;
        Ok(LevelParts { book, own, gone })
    }

    /// The database with its flags, lent.
    pub fn book(&self) -> &Book
        ensures { result.now ≡ self.now.book }
    {
        &self.book
    }

    /// The own LSPs that are issued, lent.
    pub fn own(&self) -> &OwnLsps
        ensures { result.now ≡ self.now.own }
    {
        &self.own
    }

    /// The LSP IDs that were let go, lent.
    pub fn gone(&self) -> &LetGo
        ensures { result.now ≡ self.now.gone }
    {
        &self.gone
    }

    /// Takes the memory for so many more entries, or for all that 65,536 leave, and for so many
    /// more own LSPs. The level stays as it was, also at `OutOfMemory`.
    pub fn reserve(&mut self, entries: usize, issues: usize) -> Result<(), OutOfMemory>
        ensures state { state_of self.new ≡ state_of self.old }
        ensures circuits { self.new.book.circuits ≡ self.old.book.circuits }
        ensures room { OnOk result (HasRoom self.new entries issues) }
    {
        self.own.reserve(issues)?;
        let left = ENTRY_LIMIT - self.book.store().len();
        match self.book.reserve(entries.min(left)) {
            Ok(()) => Ok(()),
            Err(_) => Err(OutOfMemory),
        }
    }

    /// An equal level; room isn't copied.
    pub fn copy(&self) -> Result<LevelParts, OutOfMemory>
        ensures state { IfOk result (λ copy. state_of copy ≡ state_of self.now) }
        ensures circuits { IfOk result (λ copy. copy.book.circuits ≡ self.now.book.circuits) }
    {
        let book = self.book.copy()?;
        let own = self.own.copy()?;
        let gone = self.gone.copy()?;
        Ok(LevelParts { book, own, gone })
    }
}
