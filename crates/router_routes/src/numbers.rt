//! Numbers in order, among which one is looked for (own).
ghost use Rattle.std.specs.Prelude.{◌≡◌, ℕ};
ghost use Rattle.std.specs.List.{Contains};
ghost use Rattle.std.specs.List.Sorted.{IsStrictlyIncreasing};
ghost use Rattle.route_table.specs.Patches.{is_moved};
ghost use Rattle.router_routes.specs.Ways.{is_by};

use route_table::Candidate;
use spf_tree::parts::number;

/// The numbers in order, each once.
pub(crate) fn in_order(mut numbers: Vec<u64>) -> Vec<u64>
    ensures rising { IsStrictlyIncreasing result.items }
    ensures all { (n : ℕ) → Contains numbers.items n → Contains result.items n }
    ensures none { (n : ℕ) → Contains result.items n → Contains numbers.items n }
{
    numbers.sort_unstable();
    numbers.dedup();
    numbers
}

/// Whether a number is one of these. Most aren't, and are past the last or before the second.
pub(crate) fn is_one_of(numbers: &[u64], number: u64) -> bool
    requires { IsStrictlyIncreasing numbers.now }
    ensures { result ≡ is_moved numbers.now number }
{
    let many = numbers.len();
    if many == 0 {
        return false;
    }
    if numbers[many - 1] < number {
        return false;
    }
    if many == 1 {
        return numbers[0] == number;
    }
    if number < numbers[1] {
        return numbers[0] == number;
    }
    is_found(numbers, number)
}

/// The same, by a binary search.
fn is_found(numbers: &[u64], number: u64) -> bool
    requires { IsStrictlyIncreasing numbers.now }
    ensures { result ≡ is_moved numbers.now number }
{
    match numbers.binary_search(&number) {
        Ok(_) => true,
        Err(_) => false,
    }
}

/// Whether a candidate is by way of a node of these numbers.
pub(crate) fn is_by(numbers: &[u64], candidate: &Candidate) -> bool
    requires { IsStrictlyIncreasing numbers.now }
    ensures { result ≡ is_by numbers.now candidate.now }
{
    is_one_of(numbers, number(candidate.origin))
}
