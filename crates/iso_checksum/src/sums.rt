//! The two sums, block by block.
ghost use Rattle.std.specs.Prelude.{◌≡◌, ◌+◌, ◌*◌, ◌%◌, ◌<◌, ◌≤◌, length};
ghost use Rattle.iso_checksum.specs.Checksum.{octet_sum, weighted_sum, IsCheckOctet};

/// What both sums are taken modulo (ISO 8473 6.11).
const MODULUS: u32 = 255;

/// The most octets whose two sums fit 32 bits, with what was carried into them, before they are reduced.
const BLOCK: usize = 5802;

/// The two sums of some octets, modulo 255.
#[derive(Clone, Copy)]
pub struct Sums {
    pub plain: u32,
    pub weighted: u32,
}

impl Sums {
    /// The sums of these octets.
    pub fn of(octets: &[u8]) -> Sums
        ensures plain { result.plain ≡ octet_sum octets.now % 255 }
        ensures weighted { result.weighted ≡ weighted_sum octets.now % 255 }
    {
        let mut sums = Sums {
            plain: 0,
            weighted: 0,
        };
        for block in octets.chunks(BLOCK) {
            sums = sums.then(block);
        }
        sums
    }

    /// The sums of the octets so far with the block after them.
    fn then(self, block: &[u8]) -> Sums
        requires plain { self.plain < 255 }
        requires weighted { self.weighted < 255 }
        requires short { length block.now ≤ BLOCK }
        ensures plain { result.plain ≡ (self.plain + octet_sum block.now) % 255 }
        ensures weighted { result.weighted
            ≡ (self.weighted + length block.now * self.plain + weighted_sum block.now) % 255 }
    {
        let mut weight = block.len() as u32;
        let mut plain = self.plain;
        let mut weighted = self.weighted + weight * self.plain;
        for octet in block {
            let octet = u32::from(*octet);
            plain += octet;
            weighted += weight * octet;
            weight -= 1;
        }
        Sums {
            plain: plain % MODULUS,
            weighted: weighted % MODULUS,
        }
    }

    /// The two check octets, one after the other, where these are the sums with 0 in their places and `weight`
    /// is how many octets there are from the second to the end.
    pub fn check_octets(self, weight: u32) -> (u8, u8)
        requires plain { self.plain < 255 }
        requires weighted { self.weighted < 255 }
        requires short { weight ≤ 65535 }
        ensures first { IsCheckOctet result.0 }
        ensures second { IsCheckOctet result.1 }
        ensures plain { (self.plain + result.0 + result.1) % 255 ≡ 0 }
        ensures weighted { (self.weighted + (weight + 1) * result.0 + weight * result.1) % 255 ≡ 0 }
    {
        let first = MODULUS - (self.weighted + weight * (MODULUS - self.plain)) % MODULUS;
        let second = MODULUS - (self.plain + first) % MODULUS;
        (first as u8, second as u8)
    }
}
