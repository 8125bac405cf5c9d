//! Own LSPs in a list by LSP ID: where one is, and how they are aged.
ghost use Rattle.std.specs.Prelude.{◌≡◌, ◌+◌, map, IfOk, MatchOption, None, Some, vec_capacity};
ghost use Rattle.std.specs.Option.{option_map};
ghost use Rattle.isis_base.specs.Identifiers.{lsp_number};
ghost use Rattle.model_router.specs.Maps.{find};
ghost use Rattle.model_router.specs.Sorted.{RisesFrom};
ghost use Rattle.lsp_fragments.specs.Kept.{by_id, issued_of, all_issued, issued_from, first_id, older_kept, IsIdAt};

use crate::kept::Kept;
use isis_base::{LspId, OutOfMemory};
use ordered::Keyed;
use std::alloc::Global;

impl Keyed for Kept {
    ghost use Rattle.lsp_fragments.specs.Kept.{kept_id};

    ghost key = { kept_id };

    fn key(&self) -> u64 {
        self.id.to_number()
    }
}

/// Where the LSP ID is, or where it would go.
pub(crate) fn place_of(list: &[Kept], id: LspId) -> Result<usize, usize>
    requires { RisesFrom 0 (by_id list.now) }
    ensures { IsIdAt list.now (lsp_number id) result }
{
    ordered::place_of(list, id.to_number())
}

/// What is kept of the LSP ID.
pub(crate) fn kept_of(list: &[Kept], id: LspId) -> Option<&Kept>
    requires { RisesFrom 0 (by_id list.now) }
    ensures { MatchOption result (find (all_issued list.now) (lsp_number id) ≡ None)
        (λ kept. find (all_issued list.now) (lsp_number id) ≡ Some (issued_of kept.now)) }
{
    match place_of(list, id) {
        Ok(at) => Some(&list[at]),
        Err(_) => None,
    }
}

/// The first LSP ID from one on that is kept.
pub(crate) fn id_from(list: &[Kept], start: LspId) -> Option<LspId>
    requires { RisesFrom 0 (by_id list.now) }
    ensures { option_map lsp_number result
        ≡ first_id (issued_from (lsp_number start) (all_issued list.now)) }
{
    match place_of(list, start) {
        Ok(at) => id_at(&list[at..]),
        Err(at) => id_at(&list[at..]),
    }
}

/// The first LSP ID above one that is kept.
pub(crate) fn id_above(list: &[Kept], id: LspId) -> Option<LspId>
    requires { RisesFrom 0 (by_id list.now) }
    ensures { option_map lsp_number result
        ≡ first_id (issued_from (lsp_number id + 1) (all_issued list.now)) }
{
    match place_of(list, id) {
        Ok(at) => id_at(&list[at + 1..]),
        Err(at) => id_at(&list[at..]),
    }
}

/// The first LSP ID of a list.
fn id_at(list: &[Kept]) -> Option<LspId>
    ensures { option_map lsp_number result ≡ first_id (all_issued list.now) }
{
    match list {
        [kept, ..] => Some(kept.id),
        [] => None,
    }
}

/// A second more for each.
pub(crate) fn age_all(list: &mut Vec<Kept>)
    requires { RisesFrom 0 (by_id list.old.items) }
    ensures items { list.new.items ≡ map older_kept list.old.items }
    ensures rises { RisesFrom 0 (by_id list.new.items) }
    ensures capacity { vec_capacity list.new ≡ vec_capacity list.old }
{
    age(list);
}

/// A second more for each.
fn age(list: &mut [Kept])
    ensures { list.new ≡ map older_kept list.old }
{
    for kept in list.iter_mut() {
        kept.age = kept.age.saturating_add(1);
    }
}

/// An equal list.
pub(crate) fn copy_of(alloc: Global, list: &[Kept]) -> Result<Vec<Kept>, OutOfMemory>
    ensures { IfOk result (λ copy. copy.items ≡ list.now) }
{
    let mut copy = Vec::with_capacity(alloc, list.len())?;
    let mut left = list;
    while let [kept, more @ ..] = left {
        match kept.copy() {
            Ok(kept) => copy.push_reserved(kept),
            Err(fault) => return Err(fault),
        }
        left = more;
    }
    Ok(copy)
}
