//! What follows for all captures: functions without a body, whose contracts are the laws.

ghost use Rattle.std.specs.Prelude.{ℕ, List, []};
ghost use Rattle.isis_base.specs.declared.level.Level.{Level};
ghost use Rattle.lsp_store.specs.Maps.{find};
ghost use Rattle.ipv6_reach.specs.Captured.{CapturedOf};
ghost use Rattle.ipv6_reach.specs.Taken.{newest, IsHeld, AreTaken};

/// A new capture that takes some octets, each with an answer, holds of each LSP ID the LSP of greatest rank among them, the
/// first of equals.
pub fn taken_law()
    ensures { (level : Level) (taken : List (List ℕ)) (end : CapturedOf)
        → AreTaken (record { level = level; entries = [] }) taken end
        → (n : ℕ) → IsHeld (find end.entries n) (newest level n taken) }
{}
