//! The rows that two graphs don't share (own).
ghost use Rattle.std.specs.Prelude.{◌≡◌, ◌++◌, ◌∷◌, [], ◌<◌, ◌⊎◌, true, length, List, IfOk, OnOk};
ghost use Rattle.std.specs.List.Sorted.{IsPermutation};
ghost use Rattle.spf_tree.specs.declared.row.Row as row;
ghost use Rattle.router_routes.specs.Differences.{AreDifferences, AreInOrder, IsSame, Stands, IsNext};

use isis_base::OutOfMemory;
use spf_tree::Row;
use spf_tree::parts::number;
use std::alloc::Global;

/// Which of two lists has the next row: the old one, the new one, or both.
#[derive(Clone, Copy)]
pub(crate) enum Side {
    Old,
    New,
    Both,
}

/// The old rows that the new ones lack, and the new ones that the old ones lack, each as often as it
/// differs.
pub(crate) fn rows_apart(
    alloc: Global,
    old: &[Row],
    new: &[Row],
) -> Result<(Vec<Row>, Vec<Row>), OutOfMemory>
    ensures { IfOk result (λ parts. AreDifferences old.now new.now parts.0.items parts.1.items) }
{
    let (old, new) = past_first(old, new);
    let (old, new) = before_last(old, new);
    rest_apart(alloc, old, new)
}

/// Both lists without the rows that they begin with alike: after a change of a few rows the others
/// needn't be put in order.
fn past_first<'a>(old: &'a [Row], new: &'a [Row]) -> (&'a [Row], &'a [Row])
    ensures { (removed added : List row.Row)
        → AreDifferences result.0.now result.1.now removed added
        → AreDifferences old.now new.now removed added }
{
    let mut place = 0;
    while place < old.len() && place < new.len() && is_same(&old[place], &new[place]) {
        place += 1;
    }
    (&old[place..], &new[place..])
}

/// Both lists without the rows that they end with alike.
fn before_last<'a>(old: &'a [Row], new: &'a [Row]) -> (&'a [Row], &'a [Row])
    ensures { (removed added : List row.Row)
        → AreDifferences result.0.now result.1.now removed added
        → AreDifferences old.now new.now removed added }
{
    let (mut end, mut other) = (old.len(), new.len());
    while end > 0 && other > 0 && is_same(&old[end - 1], &new[other - 1]) {
        end -= 1;
        other -= 1;
    }
    (&old[..end], &new[..other])
}

/// Whether two rows are alike.
fn is_same(a: &Row, b: &Row) -> bool
    ensures { result ≡ true → IsSame a.now b.now }
{
    number(a.from) == number(b.from) && number(a.to) == number(b.to) && a.metric == b.metric
}

/// The differences of rows in any order.
fn rest_apart(alloc: Global, old: &[Row], new: &[Row]) -> Result<(Vec<Row>, Vec<Row>), OutOfMemory>
    ensures { IfOk result (λ parts. AreDifferences old.now new.now parts.0.items parts.1.items) }
{
    let old_rows = in_order(copy_of(alloc, old)?);
    let new_rows = in_order(copy_of(alloc, new)?);
    parted(alloc, old_rows.as_slice(), new_rows.as_slice())
}

/// The differences of rows in order.
fn parted(alloc: Global, old: &[Row], new: &[Row]) -> Result<(Vec<Row>, Vec<Row>), OutOfMemory>
    requires old { AreInOrder old.now }
    requires new { AreInOrder new.now }
    ensures { IfOk result (λ parts. AreDifferences old.now new.now parts.0.items parts.1.items) }
{
    let mut removed = Vec::new(alloc);
    let mut added = Vec::new(alloc);
    let (mut here, mut there) = (0usize, 0usize);
    while here < old.len() || there < new.len() {
        match next_side(old, new, here, there) {
            Side::Old => {
                match put(&mut removed, old[here]) {
                    Ok(()) => {}
                    Err(error) => return Err(error),
                }
                here += 1;
            }
            Side::New => {
                match put(&mut added, new[there]) {
                    Ok(()) => {}
                    Err(error) => return Err(error),
                }
                there += 1;
            }
            Side::Both => {
                here += 1;
                there += 1;
            }
        }
    }
    Ok((removed, added))
}

/// Adds a row.
fn put(rows: &mut Vec<Row>, row: Row) -> Result<(), OutOfMemory>
    ensures { OnOk result (rows.new.items ≡ rows.old.items ++ row ∷ []) }
{
    match rows.push(row) {
        Ok(()) => Ok(()),
        Err(_) => Err(OutOfMemory),
    }
}

/// Which list has the next row.
fn next_side(old: &[Row], new: &[Row], here: usize, there: usize) -> Side
    requires { (here < length old.now) ⊎ (there < length new.now) }
    ensures { IsNext result old.now new.now here there }
{
    if here >= old.len() {
        return Side::New;
    }
    if there >= new.len() {
        return Side::Old;
    }
    first_of(&old[here], &new[there])
}

/// Which of two rows comes first.
fn first_of(old: &Row, new: &Row) -> Side
    ensures { Stands result old.now new.now }
{
    let (start, other_start) = (number(old.from), number(new.from));
    if start != other_start {
        return if start < other_start {
            Side::Old
        } else {
            Side::New
        };
    }
    let (end, other_end) = (number(old.to), number(new.to));
    if end != other_end {
        return if end < other_end {
            Side::Old
        } else {
            Side::New
        };
    }
    if old.metric == new.metric {
        return Side::Both;
    }
    if old.metric < new.metric {
        Side::Old
    } else {
        Side::New
    }
}

/// The rows in order.
fn in_order(mut rows: Vec<Row>) -> Vec<Row>
    ensures moved { IsPermutation rows.items result.items }
    ensures order { AreInOrder result.items }
{
    rows.sort_unstable_by_key(|row| (number(row.from), number(row.to), row.metric));
    rows
}

fn copy_of(alloc: Global, rows: &[Row]) -> Result<Vec<Row>, OutOfMemory>
    ensures { IfOk result (λ copy. copy.items ≡ rows.now) }
{
    match Vec::from_slice(alloc, rows) {
        Ok(copy) => Ok(copy),
        Err(_) => Err(OutOfMemory),
    }
}
