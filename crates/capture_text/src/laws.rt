//! What follows for all lines: functions without a body, whose contracts are the laws.
ghost use Rattle.std.specs.Prelude.{◌≡◌, ◌+◌, ◌<◌, ℕ, List, length};
ghost use Rattle.std.specs.List.{count_by};
ghost use Rattle.isis_base.specs.declared.level.Level.{Level};
ghost use Rattle.lsp_store.specs.Maps.{find};
ghost use Rattle.ipv6_reach.specs.Taken.{newest, IsHeld};
ghost use Rattle.capture_text.specs.declared.read.Read.{Read};
ghost use Rattle.capture_text.specs.Reading.{nothing_read, AreRead, is_filled, octets_in};

use ipv6_reach::laws::taken_law;

/// Each line that isn't empty is counted once. Where lines lead to fewer than 65,536 LSP IDs, there is held of each the
/// LSP of greatest rank among the octets of all lines, the first of equals (ISO 10589 7.3.16.1).
pub fn read_laws()
    ensures counted { (level : Level) (lines : List (List ℕ)) (end : Read)
        → AreRead (nothing_read level) lines end
        → end.kept + end.skipped ≡ count_by is_filled lines }
    ensures newest { (level : Level) (lines : List (List ℕ)) (end : Read)
        → AreRead (nothing_read level) lines end → length end.capture.entries < 65536
        → (n : ℕ) → IsHeld (find end.capture.entries n) (newest level n (octets_in lines)) }
{
    taken_law();
}
