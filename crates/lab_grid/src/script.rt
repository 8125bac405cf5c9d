//! The script of a grid.
ghost use Rattle.std.specs.Prelude.{◌≡◌, ◌+◌, ◌≤◌, ◌<◌, ◌++◌, OnOk, IfOk};
ghost use Rattle.std.specs.List.{flat_map, range_with_len};
ghost use Rattle.lab_grid.specs.GridText.{grid_text, row_by_row};
ghost use Rattle.lab_grid.specs.GridLines.{line_at};

use crate::line::{GridLine, add_line};
use isis_base::{Octets, OutOfMemory};
use std::alloc::Global;

/// The lab script of a grid of `size` rows and as many columns, 1 to 8: its routers, its links, a prefix of each router, and
/// a run of 60 seconds.
#[tactic(auto, unfolding(crate::specs::GridText::grid_text))]
pub fn grid_script(alloc: Global, size: u8) -> Result<Octets, OutOfMemory>
    requires some { 1 ≤ size }
    requires few { size ≤ 8 }
    ensures { IfOk result (λ text. text ≡ grid_text size) }
{
    let mut text = Octets::new(alloc);
    text.extend(b"isis-lab 1\n")?;
    add_rows(&mut text, GridLine::Router, size, size)?;
    add_rows(&mut text, GridLine::Across, size, size - 1)?;
    add_rows(&mut text, GridLine::Down, size - 1, size)?;
    add_rows(&mut text, GridLine::Prefix, size, size)?;
    text.extend(b"run 60\n")?;
    Ok(text)
}

/// Adds a line for each place, row by row.
#[tactic(auto, unfolding(crate::specs::GridText::row_by_row))]
fn add_rows(text: &mut Octets, line: GridLine, rows: u8, columns: u8) -> Result<(), OutOfMemory>
    requires rows { rows ≤ 8 }
    requires columns { columns ≤ 8 }
    ensures { OnOk result (text.new ≡ text.old ++ row_by_row (line_at line) rows columns) }
{
    for row in 1..rows + 1 {
        match add_row(text, line, row, columns) {
            Ok(()) => {}
            Err(error) => return Err(error),
        }
    }
    Ok(())
}

/// Adds a line for each place of a row.
fn add_row(text: &mut Octets, line: GridLine, row: u8, columns: u8) -> Result<(), OutOfMemory>
    requires row { row ≤ 8 }
    requires columns { columns ≤ 8 }
    ensures { OnOk result
        (text.new ≡ text.old ++ flat_map (line_at line row) (range_with_len 1 columns)) }
{
    for column in 1..columns + 1 {
        match add_line(text, line, row, column) {
            Ok(()) => {}
            Err(error) => return Err(error),
        }
    }
    Ok(())
}
