//! Full stores and their pages, and each public call of lsp_store once.
use isis_base::{Key, LspId, Octets, OutOfMemory};
use lsp_store::{Change, Entry, Pages, Store, StoreFault, TryCopy};
use std::alloc::Global;
use std::test::Fail;

fn id(number: u64) -> LspId {
    LspId::from_number(number)
}

/// An entry of number 1 with one octet.
fn entry(alloc: Global, octet: u8) -> Result<Entry, OutOfMemory> {
    let key = Some(Key {
        number: 1,
        purged: false,
    });
    let mut octets = Octets::new(alloc);
    octets.push(octet)?;
    Ok(Entry {
        key,
        checksum: 1,
        flags: 3,
        left: 1200,
        octets,
    })
}

/// What a row of a test's map holds.
#[derive(Clone, Copy, Debug, PartialEq, Eq)]
struct Row(u64);

impl TryCopy for Row {
    fn try_copy(&self) -> Result<Row, OutOfMemory> {
        Ok(*self)
    }
}

/// Sets bits of a row.
struct Sets(u64);

impl Change<Row> for Sets {
    ghost use Rattle.std.specs.Prelude.{bit_or};

    ghost changed = { λ sets row. record { 0 = bit_or row.0 sets.0 } };

    fn change(&self, value: &mut Row) {
        value.0 |= self.0;
    }
}

/// Gives an entry these seconds.
struct Left(u16);

impl Change<Entry> for Left {
    ghost changed = { λ given entry. record entry { left = given.0 } };

    fn change(&self, value: &mut Entry) {
        value.left = self.0;
    }
}

/// The number of pages, and the number of their pairs; none where a page has no pair, or more than 64.
fn sizes(pages: &Pages<Entry>) -> Option<(usize, usize)> {
    let mut pairs = 0usize;
    for page in pages.list() {
        let count = page.pairs().len();
        if count < 1 || count > 64 {
            return None;
        }
        pairs = pairs.wrapping_add(count);
    }
    Some((pages.list().len(), pairs))
}

/// The number of entries from the start to the end, where they are every other number from the first one on.
fn odd_numbers(store: &Store) -> Option<u64> {
    let mut next = 1u64;
    for (id, _) in store.range(id(0), id(u64::MAX)) {
        if id.to_number() != next {
            return None;
        }
        next = next.wrapping_add(2);
    }
    Some(next / 2)
}

/// Puts an entry at a number: the fault and the octet of the entry that comes back, where it finds no place.
fn put(
    store: &mut Store,
    alloc: Global,
    number: u64,
    octet: u8,
) -> Result<Option<(StoreFault, Option<u8>)>, OutOfMemory> {
    let entry = entry(alloc, octet)?;
    match store.put(id(number), entry) {
        Ok(_) => Ok(None),
        Err((back, fault)) => Ok(Some((fault, back.octets.get(0)))),
    }
}

/// Puts 65,536 entries, the last LSP ID first: the first one that finds no place.
fn first_missing(store: &mut Store, alloc: Global) -> Result<Option<u64>, OutOfMemory> {
    for n in 0..65_536u64 {
        if put(store, alloc, 65_535 - n, 1)?.is_some() {
            return Ok(Some(n));
        }
    }
    Ok(None)
}

/// Removes every second one of 65,536 entries: the first one that isn't there.
fn first_not_removed(store: &mut Store) -> Option<u64> {
    for n in 0..32_768u64 {
        if store.remove(id(2 * n)).is_none() {
            return Some(n);
        }
    }
    None
}

/// Removes all but each 32nd one of those that are left.
fn thin(store: &mut Store) {
    for n in 0..32_768u64 {
        if n % 32 != 0 {
            let _removed = store.remove(id(2 * n + 1));
        }
    }
}

/// Whether a copy has the entries of every other number, the changes and the room.
fn is_copied(store: &Store) -> Result<bool, OutOfMemory> {
    let copy = store.copy()?;
    let is_same = copy.changes() == store.changes() && copy.spare() == store.spare();
    Ok(is_same && odd_numbers(&copy) == odd_numbers(store))
}

/// Fills a store: whether it is full then for a new LSP ID, and not for a held one.
fn is_filled(store: &mut Store, alloc: Global) -> Result<bool, OutOfMemory> {
    let is_whole = first_missing(store, alloc)?.is_none() && store.len() == 65_536;
    let is_full = put(store, alloc, 70_000, 9)? == Some((StoreFault::Full, Some(9)));
    let is_put = put(store, alloc, 7, 1)?.is_none() && store.changes() == 65_536;
    Ok(is_whole && is_full && is_put)
}

/// Removes every second entry: whether the others are left, and copied.
fn is_halved(store: &mut Store) -> Result<bool, OutOfMemory> {
    let is_removed = first_not_removed(store).is_none() && store.changes() == 98_304;
    let are_left = odd_numbers(store) == Some(32_768) && is_copied(store)?;
    Ok(is_removed && are_left && sizes(store.pages()).is_some_and(|size| size.1 == 32_768))
}

// A store of 65,536 entries, made in descending order. Then every second one is removed, and then all but one of 64.
#[test]
fn full_store(rt: HostRuntime) -> Result<(), Fail> {
    let mut store = Store::new(rt.alloc());
    assert!(rt; is_filled(&mut store, rt.alloc())?);
    assert!(rt; is_halved(&mut store)?);
    thin(&mut store);
    assert!(rt; sizes(store.pages()).is_some_and(|size| size.1 == 1_024 && size.0 <= 63));
    Ok(())
}

/// Puts 99 rows at every tenth number: the first one that finds no place.
fn first_row_missing(rows: &mut Pages<Row>) -> Option<u64> {
    for n in 0..99u64 {
        if rows.put(id(10 * n), Row(n)).is_err() {
            return Some(n);
        }
    }
    None
}

/// Whether a held row is put and changed, and one that isn't there isn't.
fn are_changed(rows: &mut Pages<Row>) -> bool {
    let before = match rows.put(id(50), Row(8)) {
        Ok(before) => before,
        Err(_) => None,
    };
    rows.change(id(50), &Sets(3));
    rows.change(id(51), &Sets(3));
    let one = rows.get(id(50)) == Some(&Row(11)) && rows.get(id(51)).is_none();
    rows.change_all(&Sets(64));
    before == Some(Row(5)) && one && rows.get(id(0)) == Some(&Row(64))
}

/// Whether a copy has the 98 rows, the room, and these two rows from 95 to 110.
fn are_copied(rows: &Pages<Row>) -> Result<bool, OutOfMemory> {
    let copy = rows.copy()?;
    let mut range = copy.range(id(95), id(110));
    let first = range.next() == Some((id(100), &Row(74)));
    let second = range.next() == Some((id(110), &Row(75)));
    let all = copy.len() == 98 && copy.spare() == 1 && copy.pairs().count() == 98;
    Ok(first && second && range.next().is_none() && all)
}

// Each call of a map of rows.
#[test]
fn rows_in_pages(rt: HostRuntime) -> Result<(), Fail> {
    let mut rows = Pages::new(rt.alloc());
    rows.reserve(100)?;
    assert!(rt; rows.spare() == 100);
    assert_eq!(rt; first_row_missing(&mut rows), None);
    assert!(rt; rows.len() == 99 && rows.spare() == 1);
    assert!(rt; are_changed(&mut rows));
    assert!(rt; rows.remove(id(980)) == Some(Row(98 | 64)) && rows.remove(id(980)).is_none());
    assert!(rt; are_copied(&rows)?);
    Ok(())
}

/// Puts a purge at 3, an empty entry at 2 and a live one at 1.
fn put_three(store: &mut Store, alloc: Global) -> Result<bool, OutOfMemory> {
    let mut purge = entry(alloc, 2)?;
    purge.key = Some(Key {
        number: 2,
        purged: true,
    });
    let is_purged = store.put(id(3), purge).is_ok();
    let mut empty = entry(alloc, 1)?;
    empty.key = None;
    let is_empty = store.put(id(2), empty).is_ok();
    Ok(is_purged && is_empty && put(store, alloc, 1, 1)?.is_none())
}

/// Whether the seconds of an entry are changed, and the live one alone is walked.
fn is_walked(store: &mut Store) -> bool {
    store.change(id(1), &Left(60));
    let left = store.get(id(1)).map(|entry| entry.left);
    let mut live = store.live();
    let first = live.next().map(|pair| pair.0);
    left == Some(60) && first == Some(id(1)) && live.next().is_none()
}

// Each call of a store, with live entries, a purge and an empty entry.
#[test]
fn entries_in_a_store(rt: HostRuntime) -> Result<(), Fail> {
    let mut store = Store::new(rt.alloc());
    assert!(rt; store.reserve(65_537) == Err(StoreFault::Full));
    assert!(rt; store.reserve(3) == Ok(()) && store.spare() == 3);
    assert!(rt; put_three(&mut store, rt.alloc())?);
    assert!(rt; store.len() == 3 && store.spare() == 0 && store.changes() == 2);
    assert!(rt; store.key(id(2)).is_none() && store.get(id(4)).is_none());
    assert!(rt; is_walked(&mut store));
    assert!(rt; store.remove(id(2)).is_some() && store.len() == 2 && store.changes() == 2);
    Ok(())
}
