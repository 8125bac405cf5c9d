//! Ranges of lab_facts at two moments.
use isis_base::{Level, LspId, OutOfMemory};
use lab_facts::{SweepKey, Sweeps};
use std::alloc::Global;

/// The last LSP ID of the first half, as a number.
const MIDDLE: u64 = 1 << 40;

/// The moment at which a range of a sender is taken.
const fn key(sender: usize) -> SweepKey {
    SweepKey {
        link: 0,
        level: Level::One,
        member: 2,
        sender,
        boot: 1,
        changes: 3,
        sent_boot: 1,
        sent_changes: 4,
    }
}

/// Takes a range of a sender.
fn take(sweeps: &mut Sweeps, sender: usize, first: u64, last: u64) -> Result<(), OutOfMemory> {
    sweeps.take(
        key(sender),
        LspId::from_number(first),
        LspId::from_number(last),
    )
}

/// Whether the ranges of the first sender are whole, and those of the second.
fn are_whole(sweeps: &Sweeps) -> (bool, bool) {
    (sweeps.is_whole(key(0)), sweeps.is_whole(key(1)))
}

/// What is whole after a half of each sender, and after both halves of the first.
fn halves(alloc: Global) -> Result<[(bool, bool); 2], OutOfMemory> {
    let mut sweeps = Sweeps::new(alloc);
    take(&mut sweeps, 0, 0, MIDDLE)?;
    take(&mut sweeps, 1, MIDDLE + 1, u64::MAX)?;
    let parts = are_whole(&sweeps);
    take(&mut sweeps, 0, MIDDLE + 1, u64::MAX)?;
    Ok([parts, are_whole(&sweeps)])
}

#[test]
fn halves_make_a_whole(rt: HostRuntime) {
    let want = [(false, false), (true, false)];
    assert_eq!(rt; halves(rt.alloc()), Ok(want));
}
