//! Area addresses.
ghost use Rattle.std.specs.Prelude.{◌≡◌, ◌≤◌, length, IsNone, IfSome, ◌↔◌};

use std::marker::Model;

/// An area address (ISO 10589 7.1.1): 1 to 13 octets. Contracts see it as the list of its octets.
#[derive(Clone, Copy, Debug, PartialEq, Eq)]
pub struct AreaAddress {
    count: usize,
    octets: [u8; 13],
}

impl Model for AreaAddress {
    ghost use Rattle.std.specs.Prelude.{ℕ, List, take, length};
    ghost use Rattle.std.specs.Coded.{coded_list, coded_ℕ};

    ghost Value = { List ℕ };

    ghost use Rattle.isis_base.specs.Areas.{IsPadded, zero_padded, zero_padded-whole};

    ghost view = { λ a. take a.count a.octets };

    ghost invariant = { λ a. IsPadded a.count a.octets };

    ghost inverse = { λ octets. record { count = length octets; octets = zero_padded octets } };

    ghost inverse_ok = { λ a h. λ i.
        let whole = zero_padded-whole a.count a.octets h in record { count = whole.0 i; octets = whole.1 i } };
}

impl AreaAddress {
    /// `None` exactly where there aren't 1 to 13 octets.
    pub fn new(octets: &[u8]) -> Option<AreaAddress>
        ensures none { IsNone result ↔ (1 ≤ length octets.now → 14 ≤ length octets.now) }
        ensures some { IfSome result (λ area. area ≡ octets.now) }
    {
        let count = octets.len();
        if count == 0 || count > 13 {
            return None;
        }
        let mut zero_padded = [0u8; 13];
        zero_padded[..count].copy_from_slice(octets);
        Some(AreaAddress {
            count,
            octets: zero_padded,
        })
    }

    /// The octets.
    pub fn octets(&self) -> &[u8]
        ensures value { result.now ≡ self.now }
        ensures sized { (1 ≤ length self.now) × (length self.now ≤ 13) }
    {
        &self.octets[..self.count]
    }
}
