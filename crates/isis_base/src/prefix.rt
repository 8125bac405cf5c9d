//! IPv4 prefixes.
ghost use Rattle.std.specs.Prelude.{◌≡◌, ◌≤◌, ◌-◌, ◌%◌, ◌^◌, IsSome, IfSome, ◌↔◌};

/// An IPv4 prefix: an address whose bits past the length are 0.
#[derive(Clone, Copy, Debug, PartialEq, Eq, PartialOrd, Ord, Hash)]
pub struct Prefix {
    address: u32,
    length: u8,
    pub ghost fits: { length ≤ 32 },
    pub ghost clear: { address % 2 ^ (32 - length) ≡ 0 },
}

impl Prefix {
    /// `None` exactly where the length is above 32, or a bit of the address past it is set.
    pub fn new(address: u32, length: u8) -> Option<Prefix>
        ensures some { IsSome result ↔ ((length ≤ 32) × (address % 2 ^ (32 - length) ≡ 0)) }
        ensures value { IfSome result (λ prefix.
            (prefix.address ≡ address) × (prefix.length ≡ length)) }
    {
        if length > 32 {
            return None;
        }
        if u64::from(address) % (1u64 << (32 - length)) != 0 {
            return None;
        }
        Some(Prefix { address, length })
    }

    /// The address, its first octet the greatest.
    pub fn address(&self) -> u32
        ensures { result ≡ self.now.address }
    {
        self.address
    }

    /// The length in bits, 0 to 32.
    pub fn length(&self) -> u8
        ensures { result ≡ self.now.length }
    {
        self.length
    }
}
