//! A daemon's journal, read.
use journal_text::{JournalFault, read_journal};
use std::alloc::Global;
use std::test::Fail;

const TEXT: &str = "isis-journal 1
1 0 second -> done
2 0 pull 1 -> send 00ff
3 0 take 1 00ff -> drop frame
4 0 change metric 1 20 -> done
";

#[test]
fn a_journal_is_read(rt: HostRuntime) -> Result<(), Fail> {
    assert_eq!(rt; entries(rt.alloc(), TEXT.as_bytes()), Ok(4));
    let twice = b"isis-journal 1\n1 0 second -> done\n1 0 second -> done\n".as_slice();
    assert_eq!(rt;
        entries(rt.alloc(), twice),
        Err(JournalFault::Line { line: 3 })
    );
    Ok(())
}

/// How many entries a journal has.
fn entries(alloc: Global, text: &[u8]) -> Result<usize, JournalFault> {
    Ok(read_journal(alloc, text)?.len())
}
