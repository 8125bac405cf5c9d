//! What is still to come of what an input is shown as.
ghost use Rattle.std.specs.Prelude.{◌≤◌, ◌+◌, length};
ghost use Rattle.line_cuts.specs.Cuts.{parts_behind};
ghost use Rattle.isis_daemon.specs.Runs.{input_limit};

use std::alloc::Global;

/// The lines of an input that are still to be shown.
#[derive(Drop)]
pub(crate) struct Shown<'t> {
    pub alloc: Global,
    /// Whether also what TLVs say is shown.
    pub long: bool,
    /// The lines, if any are left.
    pub left: Option<&'t [u8]>,
    /// The number of the first of them, from 1.
    pub number: usize,
    pub ghost few: { number + length (parts_behind 10 left) ≤ input_limit + 2 },
}
