//! Where the item of a number is.
ghost use Rattle.std.specs.Prelude.{◌≡◌, MatchOption, None, Some};
ghost use Rattle.model_router.specs.Maps.{find};
ghost use Rattle.model_router.specs.Sorted.{RisesFrom};
ghost use Rattle.ordered.specs.Keyed.{keyed, IsAt};

use crate::key::Keyed;

/// Where the item of a number is, or where it would go.
pub fn place_of<T: Keyed>(list: &[T], number: u64) -> Result<usize, usize>
    requires { RisesFrom 0 (keyed T.key list.now) }
    ensures { IsAt T.key list.now number result }
{
    list.binary_search_by_key(
        &number,
        |item| -> u64
            ensures { result ≡ T.key item.now }
        { item.key() },
    )
}

/// The item of a number.
pub fn get<T: Keyed>(list: &[T], number: u64) -> Option<&T>
    requires { RisesFrom 0 (keyed T.key list.now) }
    ensures { MatchOption result (find (keyed T.key list.now) number ≡ None)
        (λ item. find (keyed T.key list.now) number ≡ Some item.now) }
{
    match place_of(list, number) {
        Ok(at) => Some(&list[at]),
        Err(_) => None,
    }
}
