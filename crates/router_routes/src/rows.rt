//! Rows of a table of candidates: as they will be where some nodes moved, and put in (own).
ghost use Rattle.std.specs.Prelude.{◌≡◌, ◌+◌, ◌≤◌, ◌++◌, filter, length, map, not, vec_capacity, None, Some, if◌then◌else◌, IfOk, OnOk};
ghost use Rattle.std.specs.List.Sorted.{IsStrictlyIncreasing};
ghost use Rattle.model_router.specs.Maps.{set_at};
ghost use Rattle.model_router.specs.Sorted.{RisesFrom};
ghost use Rattle.ordered.specs.Keyed.{keyed};
ghost use Rattle.router_routes.specs.Ways.{add_at, add_each, all_in, is_by, kept_at, kept_pair, prefixes_via, put_all, row_key, row_ways, rows_of, some_ways, ways_in};

use crate::numbers::is_by;
use isis_base::{OutOfMemory, Prefix};
use ordered::{place_of, put_at, take_at};
use route_table::Candidate;
use std::alloc::Global;

/// The number of a prefix, and the candidates for it.
pub(crate) type Row = (u64, Vec<Candidate>);

/// The rows of the prefixes of these numbers as they will be where candidates come in the place of those by way of nodes of the
/// numbers `moved`.
pub(crate) fn rows_after(
    alloc: Global,
    table: &[Row],
    numbers: &[u64],
    moved: &[u64],
    come: &[Candidate],
) -> Result<Vec<Row>, OutOfMemory>
    requires rises { RisesFrom 0 (keyed row_key table.now) }
    requires numbers { IsStrictlyIncreasing numbers.now }
    requires moved { IsStrictlyIncreasing moved.now }
    ensures rows { IfOk result (λ rows. rows_of rows.items
        ≡ add_each (map (kept_pair moved.now (rows_of table.now)) numbers.now) come.now) }
    ensures rises { IfOk result (λ rows. RisesFrom 0 (keyed row_key rows.items)) }
{
    let mut rows = kept_rows(alloc, table, numbers, moved)?;
    add_each(&mut rows, come)?;
    Ok(rows)
}

/// The rows of these numbers without the candidates by way of nodes of the numbers `moved`.
fn kept_rows(
    alloc: Global,
    table: &[Row],
    numbers: &[u64],
    moved: &[u64],
) -> Result<Vec<Row>, OutOfMemory>
    requires rises { RisesFrom 0 (keyed row_key table.now) }
    requires moved { IsStrictlyIncreasing moved.now }
    ensures { IfOk result (λ rows. rows_of rows.items
        ≡ map (kept_pair moved.now (rows_of table.now)) numbers.now) }
{
    let mut rows = match Vec::with_capacity(alloc, numbers.len()) {
        Ok(rows) => rows,
        Err(_) => return Err(OutOfMemory),
    };
    for number in numbers {
        let kept = match kept_of(alloc, ways_at(table, *number), moved) {
            Ok(kept) => kept,
            Err(error) => return Err(error),
        };
        match rows.push((*number, kept)) {
            Ok(()) => {}
            Err(_) => return Err(OutOfMemory),
        }
    }
    Ok(rows)
}

/// Candidates without those by way of nodes of these numbers.
fn kept_of(alloc: Global, ways: &[Candidate], moved: &[u64]) -> Result<Vec<Candidate>, OutOfMemory>
    requires { IsStrictlyIncreasing moved.now }
    ensures { IfOk result (λ kept. kept.items ≡ filter (λ c. not (is_by moved.now c)) ways.now) }
{
    let mut kept = Vec::new(alloc);
    for way in ways {
        if !is_by(moved, way) {
            match kept.push(*way) {
                Ok(()) => {}
                Err(_) => return Err(OutOfMemory),
            }
        }
    }
    Ok(kept)
}

/// Adds candidates to the rows of their prefixes.
fn add_each(rows: &mut Vec<Row>, come: &[Candidate]) -> Result<(), OutOfMemory>
    requires { RisesFrom 0 (rows_of rows.old.items) }
    ensures rows { OnOk result (rows_of rows.new.items
        ≡ add_each (rows_of rows.old.items) come.now) }
    ensures rises { OnOk result (RisesFrom 0 (rows_of rows.new.items)) }
{
    for way in come {
        match add_way(rows, way) {
            Ok(()) => {}
            Err(error) => return Err(error),
        }
    }
    Ok(())
}

/// Adds a candidate to the row of its prefix, where there is one.
fn add_way(rows: &mut Vec<Row>, way: &Candidate) -> Result<(), OutOfMemory>
    requires { RisesFrom 0 (rows_of rows.old.items) }
    ensures ways { OnOk result (rows_of rows.new.items
        ≡ add_at (rows_of rows.old.items) way.now) }
    ensures rises { OnOk result (RisesFrom 0 (rows_of rows.new.items)) }
{
    match place_of(rows.as_slice(), way.prefix.to_number()) {
        Ok(at) => match rows[at].1.push(*way) {
            Ok(()) => Ok(()),
            Err(_) => Err(OutOfMemory),
        },
        Err(_) => Ok(()),
    }
}

/// The candidates for the prefix of a number.
pub(crate) fn ways_at(table: &[Row], number: u64) -> &[Candidate]
    requires { RisesFrom 0 (keyed row_key table.now) }
    ensures { result.now ≡ ways_in (rows_of table.now) number }
{
    match place_of(table, number) {
        Ok(at) => table[at].1.as_slice(),
        Err(_) => &[],
    }
}

/// Puts rows in, each in the place of what is there for its prefix; one without candidates takes that out. There is room for them.
pub(crate) fn put_rows(table: &mut Vec<Row>, rows: Vec<Row>)
    requires rises { RisesFrom 0 (keyed row_key table.old.items) }
    requires room { length table.old.items + length rows.items ≤ vec_capacity table.old }
    ensures rises { RisesFrom 0 (keyed row_key table.new.items) }
    ensures ways { rows_of table.new.items
        ≡ put_all (rows_of table.old.items) (rows_of rows.items) }
{
    let mut left = rows;
    while let Some(row) = left.pop() {
        put_row(table, row);
    }
}

/// Puts a row in.
fn put_row(table: &mut Vec<Row>, row: Row)
    requires rises { RisesFrom 0 (keyed row_key table.old.items) }
    requires room { length table.old.items + 1 ≤ vec_capacity table.old }
    ensures rises { RisesFrom 0 (keyed row_key table.new.items) }
    ensures ways { rows_of table.new.items
        ≡ set_at (rows_of table.old.items) (row_key row) (some_ways (row_ways row)) }
    ensures len { length table.new.items ≤ length table.old.items + 1 }
    ensures room { vec_capacity table.new ≡ vec_capacity table.old }
{
    let number = row.0;
    let place = place_of(table.as_slice(), number);
    if has_none(row.1.as_slice()) {
        take_at(table, place, number);
        return;
    }
    put_at(table, place, row);
}

/// Whether there are no candidates.
fn has_none(ways: &[Candidate]) -> bool
    ensures { (if result then None else Some ways.now) ≡ some_ways ways.now }
{
    match ways {
        [] => true,
        [_, ..] => false,
    }
}

/// Adds the prefixes of candidates by way of nodes of these numbers.
pub(crate) fn add_touched(
    prefixes: &mut Vec<Prefix>,
    numbers: &[u64],
    table: &[Row],
) -> Result<(), OutOfMemory>
    requires { IsStrictlyIncreasing numbers.now }
    ensures { OnOk result (prefixes.new.items
        ≡ prefixes.old.items ++ prefixes_via numbers.now (all_in (rows_of table.now))) }
{
    for row in table {
        match add_by(prefixes, numbers, row.1.as_slice()) {
            Ok(()) => {}
            Err(error) => return Err(error),
        }
    }
    Ok(())
}

/// The same of one row.
fn add_by(
    prefixes: &mut Vec<Prefix>,
    numbers: &[u64],
    ways: &[Candidate],
) -> Result<(), OutOfMemory>
    requires { IsStrictlyIncreasing numbers.now }
    ensures { OnOk result (prefixes.new.items
        ≡ prefixes.old.items ++ prefixes_via numbers.now ways.now) }
{
    for way in ways {
        if is_by(numbers, way) {
            match prefixes.push(way.prefix) {
                Ok(()) => {}
                Err(_) => return Err(OutOfMemory),
            }
        }
    }
    Ok(())
}
