//! The groups of routers that joined pairs connect.
ghost use Rattle.std.specs.Prelude.{◌≡◌, ◌<◌, ◌+◌, length, slice_get, IfOk, OnOk};
ghost use Rattle.lab_facts.specs.Grouped.{groups_of};
ghost use Rattle.lab_facts.specs.Joined.{AreGroups};
ghost use Rattle.lab_facts.specs.Tags.{AreGrouped, AreTags, is_on, labelled_groups};

use crate::groups::Groups;
use crate::parents::labels_of;
use isis_base::OutOfMemory;
use std::alloc::Global;

/// The groups of the routers that take part, connected by pairs of routers that are joined. A pair
/// that names a router that doesn't take part joins nobody.
pub fn joined_groups(
    alloc: Global,
    runs: &[bool],
    pairs: &[(usize, usize)],
) -> Result<Groups, OutOfMemory>
    ensures groups { IfOk result (λ groups. AreGroups runs.now pairs.now groups) }
    ensures value { IfOk result (λ groups. groups ≡ groups_of runs.now pairs.now) }
{
    let labels = labels_of(alloc, runs, pairs)?;
    grouped(alloc, runs, &labels)
}

/// The groups of routers of one label.
fn grouped(alloc: Global, runs: &[bool], labels: &[usize]) -> Result<Groups, OutOfMemory>
    requires { AreTags runs.now labels.now }
    ensures { IfOk result (λ groups. groups
        ≡ labelled_groups runs.now labels.now (length runs.now)) }
{
    let mut groups = Groups::new(alloc);
    let mut places = vec![in alloc; 0; runs.len()]?;
    for router in 0..runs.len() {
        match add_router(alloc, &mut groups, &mut places, runs, labels, router) {
            Ok(()) => {}
            Err(fault) => return Err(fault),
        }
    }
    Ok(groups)
}

/// Adds the next router, where it takes part: to the group of its label, or as a new group, whose
/// place is kept.
fn add_router(
    alloc: Global,
    groups: &mut Groups,
    places: &mut [usize],
    runs: &[bool],
    labels: &[usize],
    router: usize,
) -> Result<(), OutOfMemory>
    requires tags { AreTags runs.now labels.now }
    requires here { router < length runs.now }
    requires groups { AreGrouped runs.now labels.now router groups.old places.old }
    ensures size { length places.new ≡ length places.old }
    ensures groups { OnOk result
        (AreGrouped runs.now labels.now (router + 1) groups.new places.new) }
{
    if !takes_part(runs, router) {
        return Ok(());
    }
    let label = labels[router];
    if label == router {
        places[router] = groups.len();
        let group = vec![in alloc; router]?;
        return groups.push(group);
    }
    groups.add(places[label], router)
}

/// Whether a router takes part.
pub(crate) fn takes_part(runs: &[bool], router: usize) -> bool
    ensures { result ≡ is_on (slice_get runs.now router) }
{
    match runs.get(router) {
        Some(on) => *on,
        None => false,
    }
}
