//! Lists in pieces, a TLV to a piece.
ghost use Rattle.std.specs.Prelude.{◌≡◌, ◌≤◌, length, take, drop, ◌++◌, OnOk};
ghost use Rattle.isis_tlv.specs.Spelling.{entry_tlv};
ghost use Rattle.router_sending.specs.Writing.{pieced, heard_tlv};

use adjacency::Neighbour;
use isis_base::{LspEntry, Octets, OutOfMemory, Snpa};
use isis_tlv::{put_entries, put_snpas};

/// The most LSP entries of a TLV (ISO 10589 9.10).
const ENTRIES: usize = 15;

/// The most SNPAs of a TLV (ISO 10589 9.5).
const SNPAS: usize = 42;

/// Adds TLVs of these LSP entries.
pub(crate) fn put_all_entries(out: &mut Octets, entries: &[LspEntry]) -> Result<(), OutOfMemory>
    ensures { OnOk result (out.new ≡ out.old ++ pieced 15 entry_tlv entries.now) }
{
    let mut rest = entries;
    while !rest.is_empty() {
        let (piece, more) = cut(rest, ENTRIES);
        match put_entries(out, piece) {
            Ok(()) => {}
            Err(fault) => return Err(fault),
        }
        rest = more;
    }
    Ok(())
}

/// Adds TLVs of the SNPAs of these neighbours.
pub(crate) fn put_heard(out: &mut Octets, heard: &[Neighbour]) -> Result<(), OutOfMemory>
    ensures { OnOk result (out.new ≡ out.old ++ pieced 42 heard_tlv heard.now) }
{
    let mut rest = heard;
    while !rest.is_empty() {
        let (piece, more) = cut(rest, SNPAS);
        match put_piece(out, piece) {
            Ok(()) => {}
            Err(fault) => return Err(fault),
        }
        rest = more;
    }
    Ok(())
}

/// Adds a TLV of the SNPAs of these neighbours.
fn put_piece(out: &mut Octets, piece: &[Neighbour]) -> Result<(), OutOfMemory>
    requires { length piece.now ≤ 42 }
    ensures { OnOk result (out.new ≡ out.old ++ heard_tlv piece.now) }
{
    let mut snpas = [Snpa([0; 6]); SNPAS];
    for place in 0..piece.len() {
        let neighbour = &piece[place];
        snpas[place] = neighbour.snpa;
    }
    put_snpas(out, &snpas[..piece.len()])
}

/// At most so many of a list, and the others.
fn cut<T>(list: &[T], most: usize) -> (&[T], &[T])
    ensures piece { result.0.now ≡ take most list.now }
    ensures rest { result.1.now ≡ drop most list.now }
{
    if list.len() <= most {
        (list, &[])
    } else {
        list.split_at(most)
    }
}
