//! Datagrams of circuits over UDP: what a PDU is sent in (own).
ghost use Rattle.std.specs.Prelude.{◌≡◌, ◌<◌, ◌≤◌, ◌≢◌, ◌↔◌, length, take, codes, Err, IfOk};
ghost use Rattle.isis_pdu.specs.Frames.{framed, unframed, frame_view};
ghost use Rattle.isis_pdu.specs.Faults.{frame_fault_text};

use isis_base::fields::{system_at, u32_at};
use isis_base::numbers::FRAME;
use isis_base::{Octets, OutOfMemory, Snpa};
use std::alloc::Global;
use std::error::Error;
use std::fmt;

/// What every datagram begins with; the sender's SNPA and its boot number stand behind it.
const MAGIC: &[u8; 4] = b"ISU2";

/// What datagrams of the first version began with.
const FIRST_MAGIC: &[u8; 4] = b"ISU1";

/// Why a datagram has no frame.
#[derive(Clone, Copy, Debug, PartialEq, Eq)]
pub enum FrameFault {
    /// It begins with `ISU1`, as those of the first version.
    Version,
    /// It doesn't, and has fewer than 14 octets.
    Short,
    /// It has 14, and begins with neither `ISU1` nor `ISU2`.
    Magic,
}

impl fmt::Display for FrameFault {
    ghost use Rattle.std.specs.Prelude.{Some};

    ghost output = { λ fault. Some (frame_fault_text fault) };

    fn fmt<W: fmt::Write>(&self, f: &mut fmt::Formatter<W>) -> fmt::Result {
        match self {
            FrameFault::Version => write!(f, "the datagram begins with ISU1"),
            FrameFault::Short => write!(f, "the datagram has fewer than 14 octets"),
            FrameFault::Magic => write!(f, "the datagram doesn't begin with ISU2"),
        }
    }
}

impl Error for FrameFault {}

/// The datagram in which a system of this SNPA sends a PDU in a boot.
#[tactic(auto, unfolding(crate::specs::Frames::framed))]
pub fn wrap(alloc: Global, snpa: Snpa, boot: u32, pdu: &[u8]) -> Result<Octets, OutOfMemory>
    ensures { IfOk result (λ datagram. datagram ≡ framed snpa boot pdu.now) }
{
    let mut datagram = Octets::new(alloc);
    datagram.extend(MAGIC)?;
    datagram.extend(&snpa.0)?;
    datagram.extend(&boot.to_be_bytes())?;
    datagram.extend(pdu)?;
    Ok(datagram)
}

/// The sender's SNPA, its boot number and the PDU of a datagram, which is lent. `Version` exactly where
/// the first four octets are `ISU1`; `Short` exactly where they aren't and there are fewer than 14;
/// `Magic` exactly where there are 14 and the first four are neither `ISU1` nor `ISU2`.
#[tactic(auto, unfolding(crate::specs::Frames::unframed))]
pub fn unwrap(datagram: &[u8]) -> Result<(Snpa, u32, &[u8]), FrameFault>
    ensures value { frame_view result ≡ unframed datagram.now }
    ensures version { result ≡ Err FrameFault.Version ↔ (take 4 datagram.now ≡ codes "ISU1") }
    ensures short { result ≡ Err FrameFault.Short
        ↔ ((length datagram.now < 14) × (take 4 datagram.now ≢ codes "ISU1")) }
    ensures magic { result ≡ Err FrameFault.Magic ↔ ((14 ≤ length datagram.now)
        × (take 4 datagram.now ≢ codes "ISU1") × (take 4 datagram.now ≢ codes "ISU2")) }
{
    if datagram.starts_with(FIRST_MAGIC) {
        return Err(FrameFault::Version);
    }
    if datagram.len() < FRAME {
        return Err(FrameFault::Short);
    }
    if datagram[..4] != MAGIC[..] {
        return Err(FrameFault::Magic);
    }
    let sender = system_at(datagram, 4);
    let boot = u32_at(datagram, 10);
    Ok((Snpa(sender.0), boot, &datagram[FRAME..]))
}
