//! The octets of an own LSP before its number is known.
ghost use Rattle.std.specs.Prelude.{◌≡◌, ◌+◌, ◌≤◌, ◌++◌, length, IfOk};
ghost use Rattle.router_sending.specs.Drafts.{lsp_octets_with};

use crate::draft::MAX_AGE;
use crate::places::{LENGTH, write_at};
use isis_base::laws::lsp_id_law;
use isis_base::numbers::LSP_HEADER;
use isis_base::{Level, LspId, Octets, OutOfMemory};
use isis_pdu::{Pdu, encode};
use std::alloc::Global;

/// The authentication before its digest is known: code 10, length 17, type 54 and zeros (RFC 5304
/// 2).
pub const BLANK_AUTH: [u8; 19] = [10, 17, 54, 0, 0, 0, 0, 0, 0, 0, 0, 0, 0, 0, 0, 0, 0, 0, 0];

/// The octets of an LSP of number 0 and checksum 0, whose TLVs are these two pieces.
pub(crate) fn blank(
    alloc: Global,
    level: Level,
    id: LspId,
    flags: u8,
    auth: &[u8],
    tlvs: &[u8],
) -> Result<Octets, OutOfMemory>
    requires { length auth.now + length tlvs.now ≤ 1465 }
    ensures octets { IfOk result (λ octets. octets
        ≡ lsp_octets_with level id flags 0 0 (auth.now ++ tlvs.now)) }
    ensures six { length id.node.system.0 ≡ 6 }
{
    lsp_id_law(id);
    let pdu = Pdu::Lsp {
        level,
        lifetime: MAX_AGE,
        id,
        number: 0,
        checksum: 0,
        flags,
        tlvs: &[],
    };
    let mut octets = encode(alloc, &pdu)?;
    let size = (LSP_HEADER + auth.len() + tlvs.len()) as u16;
    write_at(&mut octets, LENGTH, &size.to_be_bytes());
    octets.extend(auth)?;
    octets.extend(tlvs)?;
    Ok(octets)
}
