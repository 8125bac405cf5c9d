//! A whole input, read to its end.
ghost use Rattle.std.specs.Prelude.{◌≡◌, ℕ, ◌+◌, ◌<◌, ◌≤◌, List, length, true, Ok, Err, IfOk, IsOkUnless, vec_len};
ghost use Rattle.isis_edge.specs.Faults.{Rose};
ghost use Rattle.isis_edge.specs.Told.{Took};

use crate::source::{Got, Source};
use isis_base::{Octets, OutOfMemory};
use std::alloc::{AllocError, Global};
use std::error::Error;
use std::fmt;

/// How many octets one read is given room for.
const BUFFER: usize = 65_536;

/// Why an input wasn't read as a whole.
#[derive(Clone, Copy, Debug, PartialEq, Eq)]
pub enum WholeFault {
    /// A read failed.
    Fault,
    /// More octets came than the limit.
    TooLong,
    /// There is no memory for the octets.
    OutOfMemory,
}

impl fmt::Display for WholeFault {
    ghost use Rattle.std.specs.Prelude.{Some};
    ghost use Rattle.isis_edge.specs.Texts.{whole_fault_text};

    ghost output = { λ fault. Some (whole_fault_text fault) };

    fn fmt<W: fmt::Write>(&self, f: &mut fmt::Formatter<W>) -> fmt::Result {
        match self {
            WholeFault::Fault => write!(f, "read fault"),
            WholeFault::TooLong => write!(f, "input too long"),
            WholeFault::OutOfMemory => write!(f, "out of memory"),
        }
    }
}

impl Error for WholeFault {}

impl From<OutOfMemory> for WholeFault {
    ghost use Rattle.std.specs.Prelude.{◌≡◌};
    ghost use Rattle.isis_edge.specs.declared.reading.WholeFault.{WholeFault};

    ghost from_gives = { λ _ fault. fault ≡ WholeFault.OutOfMemory };

    fn from(_error: OutOfMemory) -> WholeFault {
        WholeFault::OutOfMemory
    }
}

impl From<AllocError> for WholeFault {
    ghost use Rattle.std.specs.Prelude.{◌≡◌};
    ghost use Rattle.isis_edge.specs.declared.reading.WholeFault.{WholeFault};

    ghost from_gives = { λ _ fault. fault ≡ WholeFault.OutOfMemory };

    fn from(_error: AllocError) -> WholeFault {
        WholeFault::OutOfMemory
    }
}

// So many octets 0.
fn zeros(alloc: Global, len: usize) -> Result<Vec<u8>, AllocError>
    ensures { IfOk result (λ zeros. vec_len zeros ≡ len) }
{
    vec![in alloc; 0; len]
}

/// Reads all octets to the source's end, of which there may be `limit`. `TooLong` comes as soon as one more is
/// seen, and no octet past that one is taken.
pub fn read_whole<I: Source>(
    alloc: Global,
    source: &mut I,
    limit: usize,
) -> Result<Octets, WholeFault>
    // What was read is what the source gave meanwhile, and then it gave its end.
    ensures ok { IfOk result (λ octets. Took (I.gave source.old) (I.gave source.new) octets
        × (I.ended source.new ≡ true)) }
    ensures within { IfOk result (λ octets. length octets ≤ limit) }
    ensures too_long { result ≡ Err WholeFault.TooLong
        → (octets : List ℕ) × (limit < length octets)
        × Took (I.gave source.old) (I.gave source.new) octets }
    ensures fault { result ≡ Err WholeFault.Fault
        → Rose (I.faults source.old) (I.faults source.new) }
    ensures later { I.faults source.old ≤ I.faults source.new }

    // Nothing but want of memory stands in the way where all that the source gave fits, and no read failed.
    ensures complete { (octets : List ℕ) → Took (I.gave source.old) (I.gave source.new) octets
        → length octets ≤ limit → ¬ Rose (I.faults source.old) (I.faults source.new) → IsOkUnless result WholeFault.OutOfMemory }

    // Whatever the answer, the source gave at most one octet more than the limit.
    ensures taken { (octets : List ℕ) × (length octets ≤ limit + 1)
        × Took (I.gave source.old) (I.gave source.new) octets }
{
    let mut store = zeros(alloc, BUFFER)?;
    let buffer = store.as_mut_slice();
    let mut octets = Octets::new(alloc);
    'reads: loop {
        let room = limit - octets.len();
        let wanted = room.saturating_add(1).min(buffer.len());
        match source.read(&mut buffer[..wanted]) {
            Got::Some(count) => {
                if count > room {
                    return Err(WholeFault::TooLong);
                }
                octets.extend(&buffer[..count])?;
            }
            Got::End => return Ok(octets),
            Got::Failed => return Err(WholeFault::Fault),
        }
    }
}
