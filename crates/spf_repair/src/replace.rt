//! Rows taken out and put in.

ghost use Rattle.std.specs.Prelude.{◌≡◌, ◌<◌, ◌≤◌, ◌+◌, ◌-◌, ◌^◌, ◌++◌, ℕ, List, [], true, cond, length, take, drop, slice_index_or, MatchOption, IfOk, OnOk};
ghost use Rattle.std.specs.List.{All};
ghost use Rattle.std.specs.List.Sorted.{IsNonDecreasingBy, IsPermutation};
ghost use Rattle.spf_tree.specs.declared.row.Row.{Row};
ghost use Rattle.spf_tree.specs.Walks.{start};
ghost use Rattle.spf_tree.specs.Search.{IsBounded};
ghost use Rattle.spf_tree.specs.Graphs.{same_row, times};
ghost use Rattle.spf_tree.specs.Places.{HaveEnds};
ghost use Rattle.spf_repair.specs.Replace.{AreFrom, HaveFirst, IsExchanged, IsStripped};

use isis_base::OutOfMemory;
use spf_tree::Row;
use spf_tree::parts::{Ends, by_start, first_row, number, whole};
use std::alloc::Global;

/// Rows after a change, and how many at their ends are those before it.
#[derive(Drop, Debug)]
pub struct RowsAfter {
    pub rows: Vec<Row>,
    pub same: Ends,
}

/// How many of the rows that are taken out were found, and how many rows at the ends are those before the change.
#[derive(Clone, Copy)]
struct Findings {
    found: usize,
    same: Ends,
}

/// The rows after a change, in order of their starts.
pub fn replaced(
    alloc: Global,
    rows: &[Row],
    removed: &[Row],
    added: &[Row],
) -> Result<RowsAfter, OutOfMemory>
    requires there { (x : Row) → times removed.now x ≤ times rows.now x }
    requires few { length rows.now + length added.now < 2 ^ 32 + length removed.now }
    requires bounded { IsBounded rows.now }
    requires sorted { IsNonDecreasingBy start rows.now }
    ensures times { IfOk result (λ v. (x : Row)
        → times v.rows.items x + times removed.now x ≡ times rows.now x + times added.now x) }
    ensures sorted { IfOk result (λ v. IsNonDecreasingBy start v.rows.items) }
    ensures bounded { IfOk result (λ v. IsBounded v.rows.items) }
    ensures same { IfOk result (λ v. HaveEnds rows.now v.rows.items v.same) }
{
    let out = match in_order(alloc, removed) {
        Ok(out) => out,
        Err(error) => return Err(error),
    };
    let come = match in_order(alloc, added) {
        Ok(come) => come,
        Err(error) => return Err(error),
    };
    let room = rows.len().saturating_add(come.len());
    let mut merged = match Vec::with_capacity(alloc, room) {
        Ok(merged) => merged,
        Err(_) => return Err(OutOfMemory),
    };
    match exchange(rows, out.as_slice(), come.as_slice(), &mut merged) {
        Ok(findings) => Ok(without_rest(merged, out.as_slice(), findings)),
        Err(error) => Err(error),
    }
}

/// The rows in order.
fn in_order(alloc: Global, rows: &[Row]) -> Result<Vec<Row>, OutOfMemory>
    ensures moved { IfOk result (λ v. IsPermutation rows.now v.items) }
    ensures sorted { IfOk result (λ v. IsNonDecreasingBy start v.items) }
{
    match Vec::from_slice(alloc, rows) {
        Ok(copy) => Ok(by_start(copy)),
        Err(_) => Err(OutOfMemory),
    }
}

/// Goes over the rows once: leaves the removed ones out, as far as they come in the same order, and puts the added ones
/// in their places. Rows before the first change, and behind the last one, are kept at once.
fn exchange(
    rows: &[Row],
    removed: &[Row],
    added: &[Row],
    merged: &mut Vec<Row>,
) -> Result<Findings, OutOfMemory>
    requires empty { merged.old.items ≡ [] }
    requires bounded { IsBounded rows.now }
    requires rows { IsNonDecreasingBy start rows.now }
    requires added { IsNonDecreasingBy start added.now }
    ensures exchanged { IfOk result
        (λ findings. IsExchanged rows.now removed.now added.now merged.new.items
        (length rows.now) findings.found (length added.now)) }
    ensures same { IfOk result
        (λ findings. HaveEnds rows.now merged.new.items findings.same) }
{
    let quiet = quiet_rows(rows, removed, added);
    match keep(rows, 0, quiet, merged) {
        Ok(()) => {}
        Err(error) => return Err(error),
    }
    let (mut found, mut from) = (0, 0);
    for place in quiet..rows.len() {
        if found >= removed.len() && from >= added.len() {
            let last = rows.len() - place;
            let same = Ends { first: quiet, last };
            match keep(rows, place, rows.len(), merged) {
                Ok(()) => return Ok(Findings { found, same }),
                Err(error) => return Err(error),
            }
        }
        match put_below(added, from, number(rows[place].from), merged) {
            Ok(now) => from = now,
            Err(error) => return Err(error),
        }
        match strip(&rows[place], removed, found, merged) {
            Ok(now) => found = now,
            Err(error) => return Err(error),
        }
    }
    let same = Ends {
        first: quiet,
        last: 0,
    };
    match put_rest(added, from, merged) {
        Ok(()) => Ok(Findings { found, same }),
        Err(error) => Err(error),
    }
}

/// The number of rows that start below each removed and each added one.
fn quiet_rows(rows: &[Row], removed: &[Row], added: &[Row]) -> usize
    requires rows { IsNonDecreasingBy start rows.now }
    requires added { IsNonDecreasingBy start added.now }
    ensures within { result ≤ length rows.now }
    ensures below { (k : ℕ) (d : Row) → k < result
        → AreFrom added.now 0 (start (slice_index_or rows.now k d)) }
{
    let quiet = rows_below(rows, added);
    if removed.len() == 0 {
        return quiet;
    }
    quiet.min(first_row(rows, number(removed[0].from)))
}

/// The number of rows that start below each row of a list.
fn rows_below(rows: &[Row], list: &[Row]) -> usize
    requires rows { IsNonDecreasingBy start rows.now }
    requires list { IsNonDecreasingBy start list.now }
    ensures within { result ≤ length rows.now }
    ensures below { (k : ℕ) (d : Row) → k < result
        → AreFrom list.now 0 (start (slice_index_or rows.now k d)) }
{
    if list.len() == 0 {
        return rows.len();
    }
    first_row(rows, number(list[0].from))
}

/// Keeps the rows between two places.
fn keep(rows: &[Row], first: usize, past: usize, merged: &mut Vec<Row>) -> Result<(), OutOfMemory>
    requires order { first ≤ past }
    requires within { past ≤ length rows.now }
    ensures { OnOk result
        (merged.new.items ≡ merged.old.items ++ take (past - first) (drop first rows.now)) }
{
    match merged.extend_from_slice(&rows[first..past]) {
        Ok(()) => Ok(()),
        Err(_) => Err(OutOfMemory),
    }
}

/// Puts the added rows in that start below a node. The number of those that are in.
fn put_below(
    added: &[Row],
    from: usize,
    node: u64,
    merged: &mut Vec<Row>,
) -> Result<usize, OutOfMemory>
    requires sorted { IsNonDecreasingBy start added.now }
    requires within { from ≤ length added.now }
    ensures put { IfOk result (λ now. (rows removed : List Row) (place found : ℕ)
        → AreFrom rows place node
        → IsExchanged rows removed added.now merged.old.items place found from
        → IsExchanged rows removed added.now merged.new.items place found now) }
    ensures all { IfOk result (λ now. AreFrom added.now now node) }
    ensures within { IfOk result (λ now. now ≤ length added.now) }
    ensures first { IfOk result (λ now. (rows : List Row) (many : ℕ)
        → HaveFirst rows merged.old.items many → HaveFirst rows merged.new.items many) }
{
    let mut now = from;
    while now < added.len() {
        let row = whole(&added[now]);
        if number(row.from) >= node {
            return Ok(now);
        }
        match merged.push(row) {
            Ok(()) => {}
            Err(_) => return Err(OutOfMemory),
        }
        now += 1;
    }
    Ok(now)
}

/// Puts all added rows in that aren't.
fn put_rest(added: &[Row], from: usize, merged: &mut Vec<Row>) -> Result<(), OutOfMemory>
    requires sorted { IsNonDecreasingBy start added.now }
    requires within { from ≤ length added.now }
    ensures put { OnOk result ((rows removed : List Row) (found : ℕ)
        → IsExchanged rows removed added.now merged.old.items (length rows) found from
        → IsExchanged rows removed added.now merged.new.items (length rows) found
        (length added.now)) }
    ensures first { OnOk result ((rows : List Row) (many : ℕ)
        → HaveFirst rows merged.old.items many → HaveFirst rows merged.new.items many) }
{
    for place in from..added.len() {
        match merged.push(whole(&added[place])) {
            Ok(()) => {}
            Err(_) => return Err(OutOfMemory),
        }
    }
    Ok(())
}

/// Leaves the row out where it is the next removed one, and keeps it else. The number of removed ones that were found.
fn strip(
    row: &Row,
    removed: &[Row],
    found: usize,
    merged: &mut Vec<Row>,
) -> Result<usize, OutOfMemory>
    ensures { IfOk result
        (λ now. IsStripped row.now removed.now found now merged.old.items merged.new.items) }
{
    if found < removed.len() {
        if same(row, &removed[found]) {
            return Ok(found + 1);
        }
    }
    match merged.push(*row) {
        Ok(()) => Ok(found),
        Err(_) => Err(OutOfMemory),
    }
}

/// Takes each removed row out that wasn't found. There is none where the rows stood in the full order.
fn without_rest(mut rows: Vec<Row>, removed: &[Row], findings: Findings) -> RowsAfter
    requires within { findings.found ≤ length removed.now }
    requires there { (x : Row) → times removed.now x
        ≤ times rows.items x + times (take findings.found removed.now) x }
    requires sorted { IsNonDecreasingBy start rows.items }
    ensures times { (x : Row) → times result.rows.items x + times removed.now x
        ≡ times rows.items x + times (take findings.found removed.now) x }
    ensures len { length result.rows.items + length removed.now
        ≡ length rows.items + findings.found }
    ensures small { All (λ (r : Row). r.metric < 2 ^ 32) rows.items
        → All (λ (r : Row). r.metric < 2 ^ 32) result.rows.items }
    ensures sorted { IsNonDecreasingBy start result.rows.items }
    ensures same { (before : List Row) → HaveEnds before rows.items findings.same
        → HaveEnds before result.rows.items result.same }
{
    let Findings { found, same } = findings;
    if found >= removed.len() {
        return RowsAfter { rows, same };
    }
    take_each(&mut rows, removed, found);
    let same = Ends { first: 0, last: 0 };
    RowsAfter {
        rows: by_start(rows),
        same,
    }
}

/// Takes each removed row from a place on out, as often as it is listed.
fn take_each(rows: &mut Vec<Row>, removed: &[Row], found: usize)
    requires within { found ≤ length removed.now }
    requires there { (x : Row) → times removed.now x
        ≤ times rows.old.items x + times (take found removed.now) x }
    ensures times { (x : Row) → times rows.new.items x + times removed.now x
        ≡ times rows.old.items x + times (take found removed.now) x }
    ensures len { length rows.new.items + length removed.now ≡ length rows.old.items + found }
    ensures small { All (λ (r : Row). r.metric < 2 ^ 32) rows.old.items
        → All (λ (r : Row). r.metric < 2 ^ 32) rows.new.items }
{
    for place in found..removed.len() {
        take_one(rows, &removed[place]);
    }
}

/// Takes one row out.
fn take_one(rows: &mut Vec<Row>, row: &Row)
    requires { 1 ≤ times rows.old.items row.now }
    ensures times { (x : Row) → times rows.new.items x + cond (same_row x row.now) 1 0
        ≡ times rows.old.items x }
    ensures len { length rows.new.items + 1 ≡ length rows.old.items }
    ensures small { All (λ (r : Row). r.metric < 2 ^ 32) rows.old.items
        → All (λ (r : Row). r.metric < 2 ^ 32) rows.new.items }
{
    if let Some(place) = find(rows.as_slice(), row) {
        let _row = rows.remove(place);
    }
}

/// The place of a row of the same ends and metric.
fn find(rows: &[Row], row: &Row) -> Option<usize>
    ensures { MatchOption result (times rows.now row.now ≡ 0) (λ i. (i < length rows.now)
        × ((d : Row) → same_row row.now (slice_index_or rows.now i d) ≡ true)) }
{
    for place in 0..rows.len() {
        if same(row, &rows[place]) {
            return Some(place);
        }
    }
    None
}

/// Whether two rows have the same ends and metric.
fn same(a: &Row, b: &Row) -> bool
    ensures { result ≡ same_row a.now b.now }
{
    number(a.from) == number(b.from) && (number(a.to) == number(b.to) && a.metric == b.metric)
}
