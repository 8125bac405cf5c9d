//! Faults counted.
ghost use Rattle.std.specs.Prelude.{◌≡◌, ◌≤◌};
ghost use Rattle.isis_edge.specs.Faults.{one_more};

use isis_edge::Calls;

/// Counts a fault; the count never falls.
pub(crate) fn count_fault(calls: &mut Calls)
    ensures count { calls.new ≡ record calls.old { faults = one_more calls.old.faults } }
    ensures later { calls.old.faults ≤ calls.new.faults }
{
    // Read, so that it is known to be within its type.
    let _before = calls.faults;
    calls.count_fault();
}
