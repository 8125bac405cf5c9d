//! The CSNP set of 160 headers, and PSNPs of an empty entry, of snp_exchange.
ghost use Rattle.std.specs.Prelude.{◌≡◌, IfOk};

use crate::entries::{entry, one_circuit};
use flag_sync::{Book, Whose};
use isis_base::{Key, LspEntry, LspId, NodeId, OutOfMemory, SystemId};
use snp_exchange::{Piece, Sweep, Swept, csnp_set, psnp_lists};
use std::alloc::Global;
use std::test::Fail;

/// The LSP ID of a system's number, of pseudonode and LSP number 0.
fn id_of(system: u8) -> LspId {
    LspId {
        node: NodeId {
            system: SystemId([0, 0, 0, 0, 0, system]),
            pseudonode: 0,
        },
        number: 0,
    }
}

/// Installs the purges of systems 1 to 160.
fn install(book: &mut Book, alloc: Global) -> Result<(), OutOfMemory> {
    let key = Key {
        number: 5,
        purged: true,
    };
    for system in 1..161u8 {
        let entry = entry(alloc, key, 0, 60)?;
        match book.install(id_of(system), entry) {
            Ok(()) => {}
            Err(_) => return Err(OutOfMemory),
        }
    }
    Ok(())
}

/// Whether a piece is of this range, and has entries of so many systems from one on.
fn is_piece(piece: &Piece, start: LspId, end: LspId, first: u8, count: usize) -> bool {
    let entries = piece.entries.as_slice();
    if entries.len() != count || piece.start != start || piece.end != end {
        return false;
    }
    let mut system = first;
    for said in entries {
        if said.id != id_of(system) || said.number != 5 || said.lifetime != 0 {
            return false;
        }
        system = system.wrapping_add(1);
    }
    true
}

/// The LSP ID behind a system's.
fn behind(system: u8) -> LspId {
    LspId {
        number: 1,
        ..id_of(system)
    }
}

/// Whether pieces are those of the 160 purges.
fn are_pieces(set: &[Piece]) -> bool {
    let last = LspId::from_number(u64::MAX);
    match set {
        [one, two, three] => {
            is_piece(one, LspId::from_number(0), id_of(75), 1, 75)
                && is_piece(two, behind(75), id_of(150), 76, 75)
                && is_piece(three, behind(150), last, 151, 10)
        }
        _ => false,
    }
}

#[test]
fn headers(rt: HostRuntime) -> Result<(), Fail> {
    let mut book = one_circuit(rt.alloc(), 160)?;
    assert!(rt; install(&mut book, rt.alloc()).is_ok());
    let set = csnp_set(rt.alloc(), &book)?;
    assert!(rt; are_pieces(&set));
    Ok(())
}

/// A book of one circuit that is asked for an LSP ID.
fn asked(alloc: Global) -> Result<Book, OutOfMemory>
    ensures { IfOk result (λ book. book.circuits ≡ 1) }
{
    let mut book = match one_circuit(alloc, 1) {
        Ok(book) => book,
        Err(fault) => return Err(fault),
    };
    let said = LspEntry {
        lifetime: 9,
        id: id_of(1),
        number: 1,
        checksum: 1,
    };
    if book.spare() > 0 {
        book.hear_entry(1, &said, Whose::Other);
    }
    Ok(book)
}

/// The entry of PSNPs that have one in all.
fn only_entry(alloc: Global, book: &Book) -> Result<Option<LspEntry>, OutOfMemory>
    requires { book.now.circuits ≡ 1 }
{
    let lists = psnp_lists(alloc, book, 1)?;
    match lists.as_slice() {
        [entries] => match entries.as_slice() {
            [said] => Ok(Some(*said)),
            _ => Ok(None),
        },
        _ => Ok(None),
    }
}

#[test]
fn empty_entries(rt: HostRuntime) -> Result<(), Fail> {
    let book = asked(rt.alloc())?;
    let empty = LspEntry {
        lifetime: 0,
        id: id_of(1),
        number: 0,
        checksum: 0,
    };
    assert!(rt; only_entry(rt.alloc(), &book)? == Some(empty));
    assert!(rt; csnp_set(rt.alloc(), &book)?.len() == 1);
    Ok(())
}

#[test]
fn sweeps(rt: HostRuntime) -> Result<(), Fail> {
    let (first, last) = (LspId::from_number(0), LspId::from_number(u64::MAX));
    let mut sweep = Sweep::new(rt.alloc());
    assert!(rt; sweep.take(first, id_of(75), false)? == Swept::Partial);
    assert!(rt; sweep.take(behind(150), last, false)? == Swept::Partial);
    assert!(rt; sweep.take(behind(75), id_of(150), false)? == Swept::Whole { clean: true });
    assert!(rt; sweep.take(last, first, true)? == Swept::Whole { clean: false });
    Ok(())
}
