//! A prefix as a number.
ghost use Rattle.std.specs.Prelude.{◌≡◌};
ghost use Rattle.isis_base.specs.Prefixes.{prefix_number};

use crate::prefix::Prefix;

impl Prefix {
    /// 64 times the address plus the length (own).
    pub fn to_number(&self) -> u64
        ensures { result ≡ prefix_number self.now }
    {
        64 * u64::from(self.address()) + u64::from(self.length())
    }
}
