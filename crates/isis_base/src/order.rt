//! Which of two keys is newer, and the newer of two.
ghost use Rattle.std.specs.Prelude.{◌≡◌, Some};
ghost use Rattle.isis_base.specs.Keys.{rank, StandsAgainst, join_of};

use crate::key::Key;

/// How one key stands against another.
#[derive(Clone, Copy, Debug, PartialEq, Eq)]
pub enum Order3 {
    Older,
    Same,
    Newer,
}

/// How `a` stands against `b` (ISO 10589 7.3.16): nothing is older than every key, a greater number is newer,
/// and of one number the purge is newer.
pub fn newer(a: Option<Key>, b: Option<Key>) -> Order3
    ensures { StandsAgainst result (rank a) (rank b) }
{
    match (a, b) {
        (None, None) => Order3::Same,
        (None, Some(_)) => Order3::Older,
        (Some(_), None) => Order3::Newer,
        (Some(a), Some(b)) => newer_key(a, b),
    }
}

fn newer_key(a: Key, b: Key) -> Order3
    ensures { StandsAgainst result (rank (Some a)) (rank (Some b)) }
{
    if a.number < b.number {
        return Order3::Older;
    }
    if a.number > b.number {
        return Order3::Newer;
    }
    match (a.purged, b.purged) {
        (false, true) => Order3::Older,
        (true, false) => Order3::Newer,
        _ => Order3::Same,
    }
}

/// The newer of two keys.
pub fn join(a: Option<Key>, b: Option<Key>) -> Option<Key>
    ensures { result ≡ join_of a b }
{
    match newer(a, b) {
        Order3::Older => b,
        _ => a,
    }
}
