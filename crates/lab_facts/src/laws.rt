//! What covering all LSP IDs means.
ghost use Rattle.std.specs.Prelude.{◌≡◌, ◌↔◌, ℕ, ◌<◌, ◌^◌, true, List};
ghost use Rattle.model_network.specs.Networks.{Taking};
ghost use Rattle.lab_facts.specs.declared.key.SweepKey.{SweepKey as AKey};
ghost use Rattle.lab_facts.specs.Sweeps.{is_covered, is_whole};

/// The ranges of a moment cover all LSP IDs exactly where each LSP ID is in one of them.
pub fn whole_law()
    ensures { (key : AKey) (takings : List Taking) → (is_whole key takings ≡ true)
        ↔ ((id : ℕ) → id < 2 ^ 64 → is_covered key takings id ≡ true) }
{}
