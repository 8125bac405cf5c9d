//! A book that holds 65,536 entries: each call that would make another is refused.
ghost use Rattle.std.specs.Prelude.{◌≡◌};

use crate::books::{bare, install, said};
use crate::rows::fill;
use flag_sync::{Book, LspHeard, Whose};
use lsp_store::StoreFault;
use std::alloc::Global;
use std::test::Fail;

/// What becomes of an LSP that is heard on circuit 1; or, of an own one, of its purge.
fn heard(book: &mut Book, is_own: bool) -> Option<StoreFault>
    requires { book.old.circuits ≡ 3 }
    ensures { book.new.circuits ≡ 3 }
{
    let octets = [2u8; 40];
    let entry = said(3, 600, 9);
    if entry.number == 0 {
        return None;
    }
    let lsp = LspHeard {
        entry,
        flags: 1,
        octets: octets.as_slice(),
    };
    if is_own {
        return book.keep_purge(&lsp).err();
    }
    book.hear_lsp(1, &lsp, Whose::Other).err()
}

#[test]
fn no_place_for_another(rt: HostRuntime) -> Result<(), Fail> {
    let alloc = rt.alloc();
    let mut book = bare(alloc)?;
    assert!(rt; book.reserve(65_536).is_ok());
    fill(&mut book);
    assert_eq!(rt; book.reserve(1), Err(StoreFault::Full));
    let id = said(3, 600, 9).id;
    assert_eq!(rt; install(&mut book, alloc, id), Err(StoreFault::Full));
    assert_eq!(rt; heard(&mut book, false), Some(StoreFault::Full));
    assert_eq!(rt; heard(&mut book, true), Some(StoreFault::Full));
    Ok(())
}
