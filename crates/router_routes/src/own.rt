//! One's own prefixes that two lists don't both have (own).
ghost use Rattle.std.specs.Prelude.{◌≡◌, true, List};
ghost use Rattle.isis_base.specs.declared.prefix.Prefix as declared;
ghost use Rattle.router_routes.specs.Touched.{HaveOwn};

use crate::same::same_prefix;
use isis_base::Prefix;

/// What is left of both lists without the pairs that they begin with alike, and those that they end
/// with alike: all that one of them has and the other hasn't.
pub(crate) fn own_apart<'a>(
    old: &'a [(Prefix, u32)],
    new: &'a [(Prefix, u32)],
) -> (&'a [(Prefix, u32)], &'a [(Prefix, u32)])
    ensures { (prefixes : List declared.Prefix) → HaveOwn result.0.now result.1.now prefixes
        → HaveOwn old.now new.now prefixes }
{
    let (left, right) = past_first(old, new);
    before_last(left, right)
}

/// Both lists without the pairs that they begin with alike.
fn past_first<'a>(
    old: &'a [(Prefix, u32)],
    new: &'a [(Prefix, u32)],
) -> (&'a [(Prefix, u32)], &'a [(Prefix, u32)])
    ensures { (prefixes : List declared.Prefix) → HaveOwn result.0.now result.1.now prefixes
        → HaveOwn old.now new.now prefixes }
{
    let mut place = 0;
    while place < old.len() && place < new.len() && is_same(&old[place], &new[place]) {
        place += 1;
    }
    (&old[place..], &new[place..])
}

/// Both lists without the pairs that they end with alike.
fn before_last<'a>(
    old: &'a [(Prefix, u32)],
    new: &'a [(Prefix, u32)],
) -> (&'a [(Prefix, u32)], &'a [(Prefix, u32)])
    ensures { (prefixes : List declared.Prefix) → HaveOwn result.0.now result.1.now prefixes
        → HaveOwn old.now new.now prefixes }
{
    let (mut end, mut other) = (old.len(), new.len());
    while end > 0 && other > 0 && is_same(&old[end - 1], &new[other - 1]) {
        end -= 1;
        other -= 1;
    }
    (&old[..end], &new[..other])
}

/// Whether two prefixes with their metrics are one.
fn is_same(old: &(Prefix, u32), new: &(Prefix, u32)) -> bool
    ensures { result ≡ true → old.now ≡ new.now }
{
    old.1 == new.1 && same_prefix(old.0, new.0)
}
