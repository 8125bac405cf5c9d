//! Numbers of letters.
use isis_base::OutOfMemory;
use std::alloc::Global;
use weave_core::LetterBook;

/// Octets on two links have two letters, and the same on one link have one.
fn tells_links(alloc: Global) -> Result<bool, OutOfMemory> {
    let mut book = LetterBook::new(alloc);
    book.add(0, b"ab")?;
    book.add(1, b"ab")?;
    book.add(0, b"ab")?;
    let codes = (book.code(0, b"ab"), book.code(1, b"ab"), book.code(0, b""));
    Ok(book.len() == 2 && codes == (0, 1, 2))
}

#[test]
fn tells_letters_by_link_and_octets(rt: HostRuntime) {
    assert_eq!(rt; tells_links(rt.alloc()), Ok(true));
}
