//! Neighbours in a list by SNPA.
ghost use Rattle.std.specs.Prelude.{◌≡◌, MatchOption, None, Some};
ghost use Rattle.model_router.specs.Maps.{find};
ghost use Rattle.model_router.specs.Sorted.{RisesFrom};
ghost use Rattle.adjacency.specs.Views.{by_snpa};
ghost use Rattle.model_router.specs.Numbers.{snpa_number};

use adjacency::Neighbour;
use designated_is::snpa_to_number;
use isis_base::Snpa;
use ordered::get;

/// The neighbour of an SNPA.
pub(crate) fn neighbour_at(list: &[Neighbour], snpa: Snpa) -> Option<&Neighbour>
    requires { RisesFrom 0 (by_snpa list.now) }
    ensures { MatchOption result (find (by_snpa list.now) (snpa_number snpa) ≡ None)
        (λ n. find (by_snpa list.now) (snpa_number snpa) ≡ Some n.now) }
{
    get(list, snpa_to_number(snpa))
}
