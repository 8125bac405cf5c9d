//! The lines of a grid's script.
ghost use Rattle.std.specs.Prelude.{◌≡◌, ℕ, ◌+◌, ◌<◌, List, ◌++◌, OnOk};
ghost use Rattle.lab_grid.specs.GridText as grid;
ghost use Rattle.lab_grid.specs.GridLines.{line_at};

use isis_base::{Octets, OutOfMemory, add_hex, add_number};

/// What a line of the script is of.
#[derive(Clone, Copy)]
pub(crate) enum GridLine {
    /// A router.
    Router,
    /// The link to the next column.
    Across,
    /// The link to the next row.
    Down,
    /// The prefix that a router tells.
    Prefix,
}

/// Adds the line of a place, whose row and column are counted from 1.
pub(crate) fn add_line(
    text: &mut Octets,
    line: GridLine,
    row: u8,
    column: u8,
) -> Result<(), OutOfMemory>
    requires row { row < 255 }
    requires column { column < 255 }
    ensures { OnOk result (text.new ≡ text.old ++ line_at line row column) }
{
    match line {
        GridLine::Router => add_router(text, row, column),
        GridLine::Across => add_link(text, b"h", (row, column), (row, column + 1)),
        GridLine::Down => add_link(text, b"v", (row, column), (row + 1, column)),
        GridLine::Prefix => add_prefix(text, row, column),
    }
}

/// `router gRxC 0000.RRRR.CCCC 49.0001 L1`, row and column in hex in the system ID.
#[tactic(auto, unfolding(crate::specs::GridText::router_line))]
fn add_router(text: &mut Octets, row: u8, column: u8) -> Result<(), OutOfMemory>
    ensures { OnOk result (text.new ≡ text.old ++ grid.router_line row column) }
{
    text.extend(b"router ")?;
    add_name(text, b"g", row, column)?;
    text.extend(b" 0000.00")?;
    add_hex(text, row)?;
    text.extend(b".00")?;
    add_hex(text, column)?;
    text.extend(b" 49.0001 L1\n")
}

/// `link NAME gRxC gRxC 10`: a link is named by its first end.
#[tactic(auto, unfolding(crate::specs::GridText::link_line))]
fn add_link(text: &mut Octets, mark: &[u8], from: (u8, u8), to: (u8, u8)) -> Result<(), OutOfMemory>
    ensures { OnOk result (text.new ≡ text.old ++ grid.link_line mark.now from to) }
{
    text.extend(b"link ")?;
    add_name(text, mark, from.0, from.1)?;
    text.extend(b" ")?;
    add_name(text, b"g", from.0, from.1)?;
    text.extend(b" ")?;
    add_name(text, b"g", to.0, to.1)?;
    text.extend(b" 10\n")
}

/// `prefix gRxC 10.R.C.0/24 10`.
#[tactic(auto, unfolding(crate::specs::GridText::prefix_line))]
fn add_prefix(text: &mut Octets, row: u8, column: u8) -> Result<(), OutOfMemory>
    ensures { OnOk result (text.new ≡ text.old ++ grid.prefix_line row column) }
{
    text.extend(b"prefix ")?;
    add_name(text, b"g", row, column)?;
    add_number(text, b" 10.", u64::from(row))?;
    add_number(text, b".", u64::from(column))?;
    text.extend(b".0/24 10\n")
}

/// A mark, the row, `x`, and the column.
#[tactic(auto, unfolding(crate::specs::GridText::place_name))]
fn add_name(text: &mut Octets, mark: &[u8], row: u8, column: u8) -> Result<(), OutOfMemory>
    ensures { OnOk result (text.new ≡ text.old ++ grid.place_name mark.now row column) }
{
    add_number(text, mark, u64::from(row))?;
    add_number(text, b"x", u64::from(column))
}
