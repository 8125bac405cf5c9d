//! Ranges of numbers, in order and apart from each other.
ghost use Rattle.std.specs.Prelude.{◌≡◌, ◌≤◌, ◌+◌, ◌∷◌, ◌++◌, [], nat_lt, IfOk};
ghost use Rattle.snp_exchange.specs.Sweeps.{lesser, greater, merge, merged};

use isis_base::OutOfMemory;
use std::alloc::Global;

/// The ranges with one more, merged with those that it meets or touches.
pub(crate) fn with_range(
    alloc: Global,
    ranges: &[(u64, u64)],
    start: u64,
    end: u64,
) -> Result<Vec<(u64, u64)>, OutOfMemory>
    ensures { IfOk result (λ new. new.items ≡ merged ranges.now start end) }
{
    let mut new = Vec::new(alloc);
    if end < start {
        new.extend_from_slice(ranges)?;
        return Ok(new);
    }
    let (mut start, mut end) = (start, end);
    let mut rest = ranges;
    while let [range, more @ ..] = rest {
        if is_apart(range.1, start) {
            new.push(*range)?;
        } else {
            if is_apart(end, range.0) {
                return finish(new, start, end, rest);
            }
            start = least(range.0, start);
            end = most(range.1, end);
        }
        rest = more;
    }
    finish(new, start, end, rest)
}

/// Ranges, one more, and the rest.
fn finish(
    mut new: Vec<(u64, u64)>,
    start: u64,
    end: u64,
    rest: &[(u64, u64)],
) -> Result<Vec<(u64, u64)>, OutOfMemory>
    ensures { IfOk result (λ all. all.items ≡ new.items ++ (start, end) ∷ rest.now) }
{
    new.push((start, end))?;
    new.extend_from_slice(rest)?;
    Ok(new)
}

/// Whether a number lies between an end and a start.
fn is_apart(end: u64, start: u64) -> bool
    ensures { result ≡ nat_lt (end + 1) start }
{
    start > end && start - end > 1
}

/// The lesser one.
fn least(a: u64, b: u64) -> u64
    ensures { result ≡ lesser a b }
{
    if a < b { a } else { b }
}

/// The greater one.
fn most(a: u64, b: u64) -> u64
    ensures { result ≡ greater a b }
{
    if a < b { b } else { a }
}
