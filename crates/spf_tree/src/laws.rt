//! What follows for all rows: functions without a body, whose contracts are the laws.

ghost use Rattle.std.specs.Prelude.{◌≡◌, ℕ, List};
ghost use Rattle.spf_tree.specs.declared.row.Row.{Row};
ghost use Rattle.spf_tree.specs.Distances.{AreDistances};

/// Rows have one list of distances from a root. So distances that were kept up equal those from scratch.
pub fn distances_law()
    ensures { (rows : List Row) (root : ℕ) (a b : List (ℕ × ℕ)) → AreDistances rows root a
        → AreDistances rows root b → a ≡ b }
{}
