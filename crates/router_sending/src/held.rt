//! What is held, as it is sent.
ghost use Rattle.std.specs.Prelude.{◌≡◌, ◌≤◌, ◌++◌, length, Some, OnOk, OnErr};
ghost use Rattle.std.specs.Option.{option_copied};
ghost use Rattle.isis_base.specs.Keys.{rank};
ghost use Rattle.model_router.specs.Ranks.{is_live};
ghost use Rattle.model_datagram.specs.Lsps.{with_lifetime, signed_purge, lsp_sent};
ghost use Rattle.flag_sync.specs.declared.flag_row.FlagRow.{FlagRow};
ghost use Rattle.flag_sync.specs.FlagRows.{cell_of};
ghost use Rattle.router_sending.specs.Held.{IsHeader, IsPuttable, unsigned_purge};

use crate::places::{DIGEST, LENGTH, write_at};
use hmac_auth::sign_pdu;
use isis_base::numbers::{LSP_HEADER, LSP_LIFETIME};
use isis_base::{Octets, OutOfMemory};
use lsp_store::Entry;

/// The number of octets of a purge's header with its authentication.
const SIGNED: usize = 46;

/// Such a purge before its header and its digest are written (RFC 5304 2).
const UNSIGNED: [u8; SIGNED] = [
    0, 0, 0, 0, 0, 0, 0, 0, 0, 0, 0, 0, 0, 0, 0, 0, 0, 0, 0, 0, 0, 0, 0, 0, 0, 0, 0, 10, 17, 54, 0,
    0, 0, 0, 0, 0, 0, 0, 0, 0, 0, 0, 0, 0, 0, 0,
];

/// Adds what is held of an LSP as it is sent: a live one's octets with the seconds that are left
/// (ISO 10589 7.3.15.5), of a purge the header, with its authentication where there is a key (RFC
/// 5304 2). At `OutOfMemory` the list is as it was.
#[tactic(auto, unfolding(model_datagram::specs::Lsps::lsp_sent))]
pub fn put_lsp(out: &mut Octets, key: Option<&[u8]>, entry: &Entry) -> Result<(), OutOfMemory>
    requires { IsPuttable entry.now }
    ensures ok { (row : FlagRow) → OnOk result (out.new
        ≡ out.old ++ lsp_sent (option_copied key.entry) (cell_of entry.now row)) }
    ensures err { OnErr result (out.new ≡ out.old) }
{
    if is_live(entry) {
        put_live(out, entry)
    } else {
        put_purge(out, key, entry.octets.as_slice())
    }
}

/// Whether it is live.
fn is_live(entry: &Entry) -> bool
    ensures { result ≡ is_live (rank entry.now.key) }
{
    match entry.key {
        Some(key) => !key.purged,
        None => false,
    }
}

/// Adds a live LSP.
fn put_live(out: &mut Octets, entry: &Entry) -> Result<(), OutOfMemory>
    requires { 27 ≤ length entry.now.octets }
    ensures ok { OnOk result (out.new
        ≡ out.old ++ with_lifetime entry.now.left entry.now.octets) }
    ensures err { OnErr result (out.new ≡ out.old) }
{
    out.extend(entry.octets.as_slice())?;
    let start = out.len() - entry.octets.len();
    write_at(out, start + LSP_LIFETIME, &entry.left.to_be_bytes());
    Ok(())
}

/// Adds a purge.
fn put_purge(out: &mut Octets, key: Option<&[u8]>, header: &[u8]) -> Result<(), OutOfMemory>
    requires { IsHeader header.now }
    ensures ok { OnOk result (out.new
        ≡ out.old ++ signed_purge (option_copied key.entry) header.now) }
    ensures err { OnErr result (out.new ≡ out.old) }
{
    match key {
        None => out.extend(header),
        Some(key) => out.extend(&signed_header(key, header)),
    }
}

/// A purge's header with its authentication.
fn signed_header(key: &[u8], header: &[u8]) -> [u8; SIGNED]
    requires { IsHeader header.now }
    ensures { result ≡ signed_purge (Some key.now) header.now }
{
    let mut purge = unsigned(header);
    sign_pdu(key, &mut purge, DIGEST);
    purge
}

/// The same with zeros in the place of the digest.
fn unsigned(header: &[u8]) -> [u8; SIGNED]
    requires { IsHeader header.now }
    ensures { result ≡ unsigned_purge header.now }
{
    let mut purge = UNSIGNED;
    purge[..LSP_HEADER].copy_from_slice(header);
    purge[LENGTH] = 0;
    purge[LENGTH + 1] = 46;
    purge
}
