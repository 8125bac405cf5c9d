//! Seconds of a level.
ghost use Rattle.std.specs.Prelude.{◌≡◌, ℕ, true, false};
ghost use Rattle.model_router.specs.Books.{rank_at};
ghost use Rattle.model_router.specs.Seconds.{waited};
ghost use Rattle.model_router.specs.Ageing as model;
ghost use Rattle.router_levels.specs.Views.{state_of, KeepsSpare};

use crate::level_parts::LevelParts;
use purge_ageing::age;

impl LevelParts {
    /// A second less of what SRM flags wait (ISO 10589 7.3.15.5), and one more since each own LSP's
    /// last issue (7.3.5). It takes no memory.
    pub fn wait(&mut self)
        ensures state { state_of self.new ≡ waited (state_of self.old) }
        ensures circuits { self.new.book.circuits ≡ self.old.book.circuits }
        ensures spare { KeepsSpare self.old self.new }
    {
        self.book.second();
        self.own.second();
    }

    /// A second of the level's entries (ISO 10589 7.3.16.3, 7.3.16.4): at its end a live entry is
    /// purged, a purge that was there before is erased and let go, and an empty entry is erased
    /// (own). True exactly where a key changed. It takes no memory.
    pub fn age(&mut self) -> bool
        ensures state { state_of self.new ≡ model.age (state_of self.old) }
        ensures changed { result ≡ true → (n : ℕ) × (rank_at (state_of self.new).book n
            ≡ rank_at (state_of self.old).book n → ⊥) }
        ensures same { result ≡ false → (n : ℕ)
            → rank_at (state_of self.new).book n ≡ rank_at (state_of self.old).book n }
        ensures circuits { self.new.book.circuits ≡ self.old.book.circuits }
        ensures spare { KeepsSpare self.old self.new }
    {
        age(&mut self.book, &mut self.gone)
    }
}
