//! Classes of routers that are merged, as a forest: each router has a parent.
ghost use Rattle.std.specs.Prelude.{◌≡◌, ◌<◌, ◌++◌, ◌∷◌, [], ℕ, List, length, slice_index, IfOk};
ghost use Rattle.lab_facts.specs.Parents.{AreOwn, AreParents, HaveRoots, AreLabels, AreRooted, merged};

use crate::joined::takes_part;
use isis_base::OutOfMemory;
use std::alloc::Global;

/// For each router the least one that is led to from it.
pub(crate) fn labels_of(
    alloc: Global,
    runs: &[bool],
    pairs: &[(usize, usize)],
) -> Result<Vec<usize>, OutOfMemory>
    ensures { IfOk result (λ labels. AreLabels runs.now pairs.now labels.items) }
{
    let mut parents = each_its_own(alloc, runs.len())?;
    merge_pairs(&mut parents, runs, pairs);
    Ok(parents)
}

/// Merges the classes of the routers of each pair, and makes each router's root its parent.
fn merge_pairs(parents: &mut [usize], runs: &[bool], pairs: &[(usize, usize)])
    requires { AreOwn parents.old (length runs.now) }
    ensures size { length parents.new ≡ length parents.old }
    ensures labels { AreLabels runs.now pairs.now parents.new }
{
    for place in 0..pairs.len() {
        let (near, far) = pairs[place];
        merge_pair(parents, runs, near, far);
    }
    flatten(parents);
}

/// Merges the classes of two routers, where both take part.
fn merge_pair(parents: &mut [usize], runs: &[bool], near: usize, far: usize)
    requires { AreParents parents.old (length runs.now) }
    ensures parents { AreParents parents.new (length runs.now) }
    ensures labels { (pairs : List (ℕ × ℕ)) → AreRooted runs.now pairs parents.old
        → AreRooted runs.now (pairs ++ (near, far) ∷ []) parents.new }
{
    if !takes_part(runs, near) {
        return;
    }
    if !takes_part(runs, far) {
        return;
    }
    merge(parents, near, far);
}

/// Each router as its own parent.
fn each_its_own(alloc: Global, count: usize) -> Result<Vec<usize>, OutOfMemory>
    ensures { IfOk result (λ parents. AreOwn parents.items count) }
{
    let mut parents = Vec::with_capacity(alloc, count)?;
    for router in 0..count {
        parents.push(router)?;
    }
    Ok(parents)
}

/// Merges the classes of two routers: the lesser root becomes the root of both.
fn merge(parents: &mut [usize], near: usize, far: usize)
    requires near { near < length parents.old }
    requires far { far < length parents.old }
    requires parents { AreParents parents.old (length parents.old) }
    ensures parents { AreParents parents.new (length parents.old) }
    ensures roots { (roots : List ℕ) → HaveRoots parents.old roots (length parents.old)
        → HaveRoots parents.new (merged roots near far) (length parents.old) }
{
    let near = root(parents, near);
    let far = root(parents, far);
    if near < far {
        parents[far] = near;
    } else {
        parents[near] = far;
    }
}

/// The root of a router. On the way each second router gets its parent's parent as its parent.
fn root(parents: &mut [usize], router: usize) -> usize
    requires here { router < length parents.old }
    requires parents { AreParents parents.old (length parents.old) }
    ensures parents { AreParents parents.new (length parents.old) }
    ensures here { result < length parents.old }
    ensures own { slice_index parents.new result ≡ result }
    ensures root { (roots : List ℕ) → HaveRoots parents.old roots (length parents.old)
        → result ≡ slice_index roots router }
    ensures roots { (roots : List ℕ) → HaveRoots parents.old roots (length parents.old)
        → HaveRoots parents.new roots (length parents.old) }
{
    let mut here = router;
    while parents[here] != here {
        let parent = parents[here];
        let next = parents[parent];
        parents[here] = next;
        here = next;
    }
    here
}

/// Makes each router's root its parent.
fn flatten(parents: &mut [usize])
    requires { AreParents parents.old (length parents.old) }
    ensures size { length parents.new ≡ length parents.old }
    ensures roots { (roots : List ℕ) (r : ℕ) → HaveRoots parents.old roots (length parents.old)
        → r < length parents.old → slice_index parents.new r ≡ slice_index roots r }
{
    for router in 0..parents.len() {
        let parent = parents[router];
        parents[router] = parents[parent];
    }
}
