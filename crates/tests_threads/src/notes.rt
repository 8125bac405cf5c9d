//! The list of note_list: each call once, in another thread than the list's, and that a list has no octets.
use note_list::NoteList;
use std::test::Fail;
use std::{mem, thread};

#[test]
fn a_list_has_no_octets(rt: HostRuntime) -> Result<(), Fail> {
    let list: NoteList<u64, u64> = NoteList::new(&7);
    let (list, _) = thread::join(
        &rt,
        move || {
            let mut list = list;
            list.push(&1);
            list
        },
        || (),
    );
    assert_eq!(rt; mem::size_of_val(&list), 0);
    Ok(())
}
