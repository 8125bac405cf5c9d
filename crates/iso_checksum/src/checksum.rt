//! Whether the checksum holds, and the check octets that make it hold.
ghost use Rattle.std.specs.Prelude.{◌≡◌, ℕ, ◌+◌, ◌≤◌, ◌↔◌, length, IsTrue, slice_index};
ghost use Rattle.iso_checksum.specs.Checksum.{checksum_holds, Holds, with_pair, IsCheckOctet};

use crate::sums::Sums;

/// Whether the checksum of these octets holds: both their sum and their weighted sum are 0 modulo 255.
/// The two check octets are among them (ISO 8473 6.11, ISO 10589 7.3.11).
#[tactic(auto, unfolding(crate::specs::Checksum::checksum_holds))]
pub fn holds(octets: &[u8]) -> bool
    ensures exactly { IsTrue result ↔ Holds octets.now }
    ensures value { result ≡ checksum_holds octets.now }
{
    let sums = Sums::of(octets);
    sums.plain == 0 && sums.weighted == 0
}

/// Writes the two check octets from place `at` on, so that the checksum of all octets holds.
/// Each is 1 to 255, and what stood in their places isn't looked at (ISO 8473 6.11, ISO 10589 7.3.11).
pub fn fill(octets: &mut [u8], at: usize)
    requires place { at + 2 ≤ length octets.old }
    requires short { length octets.old ≤ 65535 }
    ensures holds { Holds octets.new }
    ensures first { IsCheckOctet (slice_index octets.new at) }
    ensures second { IsCheckOctet (slice_index octets.new (at + 1)) }
    ensures others { octets.new
        ≡ with_pair octets.old at (slice_index octets.new at) (slice_index octets.new (at + 1)) }

    // No other two check octets make it hold, so those that stood there make no difference.
    ensures only { (x y : ℕ) → IsCheckOctet x → IsCheckOctet y → Holds (with_pair octets.old at x y)
        → (x ≡ slice_index octets.new at) × (y ≡ slice_index octets.new (at + 1)) }
{
    octets[at] = 0;
    octets[at + 1] = 0;
    let blank = Sums::of(octets);
    let weight = (octets.len() - at - 1) as u32;
    let (first, second) = blank.check_octets(weight);
    octets[at] = first;
    octets[at + 1] = second;
}
