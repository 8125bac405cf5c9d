//! How an item is put in and taken out.
ghost use Rattle.std.specs.Prelude.{◌≡◌, ◌+◌, ◌<◌, ◌≤◌, length, OnOk, OnErr, IsOk, IsSome, vec_capacity};
ghost use Rattle.model_router.specs.Maps.{find, put, erase};
ghost use Rattle.model_router.specs.Sorted.{RisesFrom};
ghost use Rattle.ordered.specs.Keyed.{keyed, IsAt};

use crate::key::Keyed;
use crate::search::place_of;
use isis_base::OutOfMemory;

/// Puts an item in at its place, for which there is room. It takes no memory.
pub fn put_at<T: Keyed + Drop>(list: &mut Vec<T>, place: Result<usize, usize>, item: T)
    requires place { IsAt T.key list.old.items (T.key item) place }
    requires room { length (put (keyed T.key list.old.items) (T.key item) item)
        ≤ vec_capacity list.old }
    ensures items { keyed T.key list.new.items
        ≡ put (keyed T.key list.old.items) (T.key item) item }
    ensures room { vec_capacity list.new ≡ vec_capacity list.old }
{
    match place {
        Ok(at) => list[at] = item,
        Err(at) => list.insert(at, item).unwrap(),
    }
}

/// Puts an item in at its place. Where it takes the place of another, or room is spare, it takes no
/// memory. At `OutOfMemory` the list is as it was.
pub fn insert_at<T: Keyed + Drop>(
    list: &mut Vec<T>,
    place: Result<usize, usize>,
    item: T,
) -> Result<(), OutOfMemory>
    requires place { IsAt T.key list.old.items (T.key item) place }
    requires rises { RisesFrom 0 (keyed T.key list.old.items) }
    ensures ok { OnOk result (keyed T.key list.new.items
        ≡ put (keyed T.key list.old.items) (T.key item) item) }
    ensures err { OnErr result (list.new.items ≡ list.old.items) }
    ensures err_room { OnErr result (vec_capacity list.new ≡ vec_capacity list.old) }
    ensures rises { RisesFrom 0 (keyed T.key list.new.items) }
    ensures held { IsSome (find (keyed T.key list.old.items) (T.key item)) → IsOk result }
    ensures room { length list.old.items < vec_capacity list.old → IsOk result }
    ensures len { OnOk result (length list.new.items ≤ length list.old.items + 1) }
    ensures capacity { vec_capacity list.old ≤ vec_capacity list.new }
{
    match place {
        Ok(at) => {
            list[at] = item;
            Ok(())
        }
        Err(at) => {
            match list.reserve(1) {
                Ok(()) => {}
                Err(_) => return Err(OutOfMemory),
            }
            list.insert(at, item).unwrap();
            Ok(())
        }
    }
}

/// Takes the item of a number out, where there is one.
pub fn take_out<T: Keyed + Drop>(list: &mut Vec<T>, number: u64)
    requires { RisesFrom 0 (keyed T.key list.old.items) }
    ensures items { keyed T.key list.new.items ≡ erase (keyed T.key list.old.items) number }
    ensures rises { RisesFrom 0 (keyed T.key list.new.items) }
    ensures len { length list.new.items ≤ length list.old.items }
    ensures capacity { vec_capacity list.new ≡ vec_capacity list.old }
{
    let place = place_of(list, number);
    take_at(list, place, number);
}

/// The same where its place is known.
pub fn take_at<T: Keyed + Drop>(list: &mut Vec<T>, place: Result<usize, usize>, number: u64)
    requires { IsAt T.key list.old.items number place }
    ensures items { keyed T.key list.new.items ≡ erase (keyed T.key list.old.items) number }
    ensures len { length list.new.items ≤ length list.old.items }
    ensures room { vec_capacity list.new ≡ vec_capacity list.old }
{
    if let Ok(at) = place {
        list.remove(at);
    }
}
