//! How a datagram begins and ends.
ghost use Rattle.std.specs.Prelude.{◌≡◌, ◌≤◌, [], ◌++◌, length, IfOk};
ghost use Rattle.std.specs.Option.{option_copied};
ghost use Rattle.isis_base.specs.PduKinds.{header_length};
ghost use Rattle.isis_pdu.specs.Views.{pdu_view, tlvs_of_pdu};
ghost use Rattle.isis_pdu.specs.Spelling.{octets_of_pdu, priority_of};
ghost use Rattle.router_sending.specs.Drafts.{blank_auth};
ghost use Rattle.router_sending.specs.Writing.{frame_of, sized, digested, ended, IsSignable, IsEndable};

use crate::blank::BLANK_AUTH;
use hmac_auth::sign_pdu;
use isis_base::numbers::FRAME;
use isis_base::{Octets, OutOfMemory, PduKind, Snpa, SystemId};
use isis_pdu::{Pdu, encode, wrap};
use std::alloc::Global;

/// The frame, a header without TLVs, and, where it is to be signed, the room for the digest.
pub(crate) fn begin(
    alloc: Global,
    system: SystemId,
    boot: u32,
    header: &Pdu<'_>,
    keyed: bool,
) -> Result<Octets, OutOfMemory>
    requires tlvs { tlvs_of_pdu (pdu_view header.now) ≡ [] }
    requires priority { priority_of (pdu_view header.now) ≤ 127 }
    ensures octets { IfOk result (λ octets. octets
        ≡ frame_of system boot (octets_of_pdu (pdu_view header.now) ++ blank_auth keyed)) }
    ensures six { length system.0 ≡ 6 }
{
    let header = encode(alloc, header)?;
    let mut octets = frame(alloc, system, boot, header.as_slice())?;
    if keyed {
        octets.extend(&BLANK_AUTH)?;
    }
    Ok(octets)
}

/// The frame, and octets behind it.
#[tactic(auto, unfolding(isis_pdu::specs::Frames::framed))]
pub(crate) fn frame(
    alloc: Global,
    system: SystemId,
    boot: u32,
    pdu: &[u8],
) -> Result<Octets, OutOfMemory>
    ensures octets { IfOk result (λ octets. octets ≡ frame_of system boot pdu.now) }
    ensures six { length system.0 ≡ 6 }
{
    wrap(alloc, Snpa(system.0), boot, pdu)
}

/// Writes the PDU length, and the digest where there is a key.
pub(crate) fn end(octets: &mut Octets, kind: PduKind, key: Option<&[u8]>)
    requires { IsEndable kind (option_copied key) octets.old }
    ensures { octets.new ≡ ended kind (option_copied key.entry) octets.old }
{
    end_lent(octets.as_mut_slice(), kind, key);
}

/// The same of a datagram that is lent.
fn end_lent(octets: &mut [u8], kind: PduKind, key: Option<&[u8]>)
    requires { IsEndable kind (option_copied key) octets.old }
    ensures { octets.new ≡ ended kind (option_copied key.entry) octets.old }
{
    end_pdu(&mut octets[FRAME..], kind, key);
}

/// The same of a PDU that is lent.
fn end_pdu(pdu: &mut [u8], kind: PduKind, key: Option<&[u8]>)
    requires { IsSignable kind (option_copied key) pdu.old }
    ensures { pdu.new ≡ digested kind (option_copied key.entry) (sized kind pdu.old) }
{
    write_length(pdu, kind);
    if let Some(key) = key {
        sign_pdu(key, pdu, usize::from(kind.header_length()) + 3);
    }
}

/// Writes the PDU length.
fn write_length(pdu: &mut [u8], kind: PduKind)
    requires header { header_length kind ≤ length pdu.old }
    requires short { length pdu.old ≤ 65535 }
    ensures { pdu.new ≡ sized kind pdu.old }
{
    let place = kind.length_place();
    let count = (pdu.len() as u16).to_be_bytes();
    pdu[place..place + 2].copy_from_slice(&count);
}
