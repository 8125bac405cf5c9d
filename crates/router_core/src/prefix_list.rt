//! Prefixes in a list by their number: where one is, and how one is put and taken out.
ghost use Rattle.std.specs.Prelude.{◌≡◌, map, is_ok, is_some, IfOk, OnOk, OnErr};
ghost use Rattle.model_router.specs.Maps.{find, put, erase};
ghost use Rattle.model_router.specs.Sorted.{RisesFrom};
ghost use Rattle.router_wanted.specs.Views.{prefix_pair};
ghost use Rattle.isis_base.specs.Prefixes.{prefix_number};
ghost use Rattle.router_core.specs.PrefixLists.{IsPrefixAt};

use isis_base::{OutOfMemory, Prefix};

/// Where the prefix is, or where it would go.
pub(crate) fn place_of(list: &[(Prefix, u32)], prefix: Prefix) -> Result<usize, usize>
    requires { RisesFrom 0 (map prefix_pair list.now) }
    ensures at { IsPrefixAt list.now (prefix_number prefix) result }
    ensures found { is_ok result ≡ is_some (find (map prefix_pair list.now)
        (prefix_number prefix)) }
{
    ordered::place_of(list, prefix.to_number())
}

/// Puts a prefix in at its place with a metric. At `OutOfMemory` the list is as it was.
pub(crate) fn put_at(
    list: &mut Vec<(Prefix, u32)>,
    prefix: Prefix,
    metric: u32,
) -> Result<(), OutOfMemory>
    requires { RisesFrom 0 (map prefix_pair list.old.items) }
    ensures ok { OnOk result (map prefix_pair list.new.items
        ≡ put (map prefix_pair list.old.items) (prefix_number prefix) metric) }
    ensures err { OnErr result (list.new.items ≡ list.old.items) }
    ensures rises { RisesFrom 0 (map prefix_pair list.new.items) }
{
    match place_of(list, prefix) {
        Ok(at) => {
            list[at] = (prefix, metric);
            Ok(())
        }
        Err(at) => match list.insert(at, (prefix, metric)) {
            Ok(()) => Ok(()),
            Err(_) => Err(OutOfMemory),
        },
    }
}

/// Takes the prefix out, where it is there.
pub(crate) fn take_out(list: &mut Vec<(Prefix, u32)>, prefix: Prefix)
    requires { RisesFrom 0 (map prefix_pair list.old.items) }
    ensures items { map prefix_pair list.new.items
        ≡ erase (map prefix_pair list.old.items) (prefix_number prefix) }
    ensures rises { RisesFrom 0 (map prefix_pair list.new.items) }
{
    if let Ok(at) = place_of(list, prefix) {
        list.remove(at);
    }
}

/// An equal list.
pub(crate) fn copy_of(list: &Vec<(Prefix, u32)>) -> Result<Vec<(Prefix, u32)>, OutOfMemory>
    ensures { IfOk result (λ copy. copy.items ≡ list.now.items) }
{
    let copy = Vec::from_slice(*list.allocator(), list)?;
    Ok(copy)
}
