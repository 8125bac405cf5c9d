//! The run of a grid.
ghost use Rattle.std.specs.Prelude.{◌≡◌, ◌≤◌, IsOk};
ghost use Rattle.isis_edge.specs.Faults.{Rose};
ghost use Rattle.lab_grid.specs.GridRuns.{grid_end};
ghost use Rattle.isis_daemon.specs.GridEnds.{GridEnds};
ghost use Rattle.isis_daemon.specs.Runs.{IsDoneUnlessMemory};

use crate::status::Status;
use isis_edge::Sink;
use lab_grid::{run_grid, write_summary};
use std::alloc::Global;

/// Runs the grid of `size` rows and as many columns, and writes its summary. At `Status::Done` the headline holds of
/// the grid's script.
pub(crate) fn grid<O: Sink>(alloc: Global, size: u8, output: &mut O) -> Status
    requires some { 1 ≤ size }
    requires few { size ≤ 8 }
    ensures ends { GridEnds size (O.put output.old) (O.put output.new) result }
    ensures write_fault { result ≡ Status.WriteFault
        → Rose (O.faults output.old) (O.faults output.new) }
    ensures complete { IsOk (grid_end size) → ¬ Rose (O.faults output.old) (O.faults output.new)
        → IsDoneUnlessMemory result }
    ensures later { O.faults output.old ≤ O.faults output.new }
{
    let summary = match run_grid(alloc, size) {
        Ok(summary) => summary,
        Err(fault) => return Status::from(fault),
    };
    match write_summary(alloc, &summary, output) {
        Ok(()) => Status::Done,
        Err(fault) => Status::from(fault),
    }
}
