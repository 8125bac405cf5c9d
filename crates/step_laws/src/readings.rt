//! The law of the two readings of a CSNP that is taken without a flag.
ghost use Rattle.std.specs.Prelude.{◌≡◌, ◌↔◌, ℕ, true, false, List, Option, Some, None};
ghost use Rattle.isis_base.specs.declared.level.Level.{Level};
ghost use Rattle.model_router.specs.Places.{nth};
ghost use Rattle.model_router.specs.SnpTable.{SnpEntry};
ghost use Rattle.model_router.specs.Routers.{Circuit, LevelState, Router, level_of};
ghost use Rattle.model_router.specs.Givens.{Given};
ghost use Rattle.model_router.specs.Takes.{Scene, take_snp};
ghost use Rattle.model_router.specs.Events.{Envelope, SnpHeard, Take};
ghost use Rattle.model_router.specs.Receiving.{scene_of, drop_of};
ghost use Rattle.model_router.specs.Steps.{step};
ghost use Rattle.model_router.specs.Sorted.{IsSorted};
ghost use Rattle.model_router.specs.SweepLaws.{AreClean};
ghost use Rattle.model_network.specs.Takings.{would_flag_any, is_clean};
ghost use Rattle.step_laws.specs.Readings.{KeepsKeys, IsTakenCleanly};

/// Entry after entry, each by whose its LSP is and at what those before it left, no entry of an SNP
/// sets a flag, exactly where none would at the book before, whosever the LSPs are. Then no key
/// changes as the SNP is taken. So a CSNP that a router takes is clean by `is_clean`, exactly where
/// neither its entries nor, behind them, its range set a flag.
pub fn readings_law()
    ensures entries { (scene : Scene) (state : LevelState) (system place : ℕ)
        (entries : List SnpEntry)
        → AreClean scene state system place entries ↔ (would_flag_any state.book entries ≡ false) }
    ensures keys { (scene : Scene) (state : LevelState) (system place : ℕ) (range : Option (ℕ × ℕ))
        (entries : List SnpEntry) → would_flag_any state.book entries ≡ false
        → KeepsKeys state.book (take_snp scene state system place range entries).book }
    ensures clean { (given : Given) (r : Router) (place : ℕ) (c : Circuit) (level : Level)
        (from : Envelope) (source : ℕ) (range : ℕ × ℕ) (entries : List SnpEntry) → IsSorted r
        → nth r.circuits place ≡ Some c
        → drop_of r place c (SnpHeard level from source (Some range) entries) ≡ None
        → (is_clean r
        (step given r (Take place (SnpHeard level from source (Some range) entries))).router
        level range entries ≡ true)
        ↔ IsTakenCleanly (scene_of given r level) (level_of r level) r.config.system place range
        entries }
{}
