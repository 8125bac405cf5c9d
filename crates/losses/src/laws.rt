//! What holds of all schedules, and of their parts: functions without a body, whose contracts are the laws.
ghost use Rattle.std.specs.Prelude.{◌≡◌, ℕ, ◌<◌, []};
ghost use Rattle.losses.specs.Trees.{Tree};
ghost use Rattle.losses.specs.Schedules.{schedules};
ghost use Rattle.losses.specs.Counts.{nothing, with_all};
ghost use Rattle.losses.specs.Claims.{AreAllOnce, IsWorst};
ghost use Rattle.losses.specs.Parts.{AreParts, AreJoined, Sum};

use crate::tally::SCHEDULE_LIMIT;

/// Each run with at most so many losses is among the schedules, and no two of them lose the same deliveries. No such run costs
/// more than the worst of the schedules.
pub fn schedule_laws()
    ensures once { (tree : Tree) (most : ℕ) → AreAllOnce tree most (schedules tree most []) }
    ensures worst { (tree : Tree) (most wanted : ℕ)
        → IsWorst tree most (with_all wanted nothing (schedules tree most [])) }
{}

/// What is lost in a part is lost in no other part. What is known of the parts, joined in any order, is what is known of the
/// whole.
pub fn part_laws()
    ensures parts { (tree : Tree) (most wanted parts : ℕ) → 0 < parts → AreParts tree most wanted parts }
    ensures joined { (a b c : Sum) → AreJoined a b c }
{}

/// The most schedules that are played.
pub fn limit_law()
    ensures { SCHEDULE_LIMIT ≡ 16777216 }
{}
