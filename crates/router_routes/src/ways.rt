//! Candidates by prefix, and what they will be (own).
ghost use Rattle.std.specs.Prelude.{[], ◌≡◌, ◌+◌, ◌≤◌, ◌++◌, true, map, MatchOption, IfSome, length, vec_capacity, IfOk, OnOk};
ghost use Rattle.std.specs.List.Sorted.{IsStrictlyIncreasing};
ghost use Rattle.model_router.specs.Sorted.{RisesFrom};
ghost use Rattle.ordered.specs.Keyed.{keyed};
ghost use Rattle.router_routes.specs.Ways.{AreAtNumbers, AreWays, HaveRoom, add_each, all_in, kept_pair, number_of, prefixes_via, put_all, row_key, rows_of, ways_in};

use crate::numbers::in_order;
use crate::rows::{Row, add_touched, put_rows, rows_after, ways_at};
use isis_base::{OutOfMemory, Prefix};
use ordered::place_of;
use route_table::Candidate;
use std::alloc::Global;
use std::marker::Model;

/// Candidates by prefix: a row for each prefix that has some, in order of the prefixes' numbers.
#[derive(Drop)]
pub(crate) struct Ways {
    rows: Vec<Row>,
}

impl Model for Ways {
    ghost use Rattle.std.specs.Prelude.{vec_capacity};
    ghost use Rattle.model_router.specs.Sorted.{RisesFrom};
    ghost use Rattle.ordered.specs.Keyed.{keyed};
    ghost use Rattle.router_routes.specs.Ways.{WaysOf, row_key, rows_of};

    ghost Value = { WaysOf };

    ghost view = { λ w. record { rows = rows_of w.rows.items; room = vec_capacity w.rows } };

    ghost invariant = { λ w. RisesFrom 0 (keyed row_key w.rows.items) };
}

/// Rows as they will be, in order, with room for all that there are then where the table has none.
#[derive(Drop)]
pub(crate) struct RowsAfter {
    rows: Vec<Row>,
    room: Option<Vec<Row>>,
}

impl Model for RowsAfter {
    ghost use Rattle.std.specs.Prelude.{[], ◌≡◌, IfSome, vec_capacity};
    ghost use Rattle.std.specs.Option.{option_map};
    ghost use Rattle.model_router.specs.Sorted.{RisesFrom};
    ghost use Rattle.router_routes.specs.Ways.{AreRowsWithRoom, RowsOf, rows_of};

    ghost Value = { RowsOf };

    ghost view = { λ r. record {
      rows = rows_of r.rows.items;
      room = option_map (λ room. vec_capacity room) r.room;
    } };

    ghost invariant = { λ r. AreRowsWithRoom r.rows.items r.room };
}

impl Ways {
    /// The table of these candidates.
    pub(crate) fn new(alloc: Global, list: &[Candidate]) -> Result<Ways, OutOfMemory>
        ensures { IfOk result (λ table. AreWays table.rows list.now) }
    {
        let numbers = prefix_numbers(alloc, list, &[])?;
        let rows = rows_after(alloc, &[], numbers.as_slice(), &[], list)?;
        Ok(Ways { rows })
    }

    /// The rows of the prefixes of these numbers as they will be where candidates come in the place of those by way of nodes of the
    /// numbers `moved`.
    pub(crate) fn after(
        &self,
        alloc: Global,
        numbers: &[u64],
        moved: &[u64],
        come: &[Candidate],
    ) -> Result<RowsAfter, OutOfMemory>
        requires numbers { IsStrictlyIncreasing numbers.now }
        requires moved { IsStrictlyIncreasing moved.now }
        ensures rows { IfOk result (λ after. after.rows
            ≡ add_each (map (kept_pair moved.now self.now.rows) numbers.now) come.now) }
        ensures room { IfOk result (λ after. HaveRoom self.now after) }
    {
        let rows = rows_after(alloc, self.rows.as_slice(), numbers, moved, come)?;
        self.with_room(alloc, rows)
    }

    /// Rows with room for all that there are once they are put in, where the table has none; and for half as many more, so that rows
    /// move seldom.
    fn with_room(&self, alloc: Global, rows: Vec<Row>) -> Result<RowsAfter, OutOfMemory>
        requires { RisesFrom 0 (keyed row_key rows.items) }
        ensures rows { IfOk result (λ after. after.rows ≡ rows_of rows.items) }
        ensures room { IfOk result (λ after. HaveRoom self.now after) }
    {
        let Some(many) = self.rows.len().checked_add(rows.len()) else {
            return Err(OutOfMemory);
        };
        if many <= self.rows.capacity() {
            return Ok(RowsAfter { rows, room: None });
        }
        match Vec::with_capacity(alloc, many.saturating_add(many / 2)) {
            Ok(room) => Ok(RowsAfter {
                rows,
                room: Some(room),
            }),
            Err(_) => Err(OutOfMemory),
        }
    }

    /// Puts rows in, each in the place of what is there for its prefix. It takes no memory.
    pub(crate) fn put(&mut self, after: RowsAfter)
        requires { HaveRoom self.old after }
        ensures { self.new.rows ≡ put_all self.old.rows after.rows }
    {
        let RowsAfter { rows, room } = after;
        move_to(&mut self.rows, room);
        put_rows(&mut self.rows, rows);
    }

    /// Adds the prefixes of all candidates by way of nodes of these numbers.
    pub(crate) fn add_prefixes(
        &self,
        prefixes: &mut Vec<Prefix>,
        numbers: &[u64],
    ) -> Result<(), OutOfMemory>
        requires { IsStrictlyIncreasing numbers.now }
        ensures { OnOk result (prefixes.new.items
            ≡ prefixes.old.items ++ prefixes_via numbers.now (all_in self.now.rows)) }
    {
        if numbers.is_empty() {
            return Ok(());
        }
        add_touched(prefixes, numbers, self.rows.as_slice())
    }
}

impl RowsAfter {
    /// Whether no row is another.
    pub(crate) fn is_empty(&self) -> bool
        ensures { result ≡ true → self.now.rows ≡ [] }
    {
        self.rows.is_empty()
    }
}

/// The candidates for the prefix of a number, once these rows are put in.
pub(crate) fn ways_then<'a>(table: &'a Ways, after: &'a RowsAfter, number: u64) -> &'a [Candidate]
    ensures { result.now ≡ ways_in (put_all table.now.rows after.now.rows) number }
{
    match place_of(after.rows.as_slice(), number) {
        Ok(at) => after.rows[at].1.as_slice(),
        Err(_) => ways_at(table.rows.as_slice(), number),
    }
}

/// The numbers of the prefixes of candidates of two lists, in order, each once.
pub(crate) fn prefix_numbers(
    alloc: Global,
    some: &[Candidate],
    more: &[Candidate],
) -> Result<Vec<u64>, OutOfMemory>
    ensures rising { IfOk result (λ numbers. IsStrictlyIncreasing numbers.items) }
    ensures some { IfOk result (λ numbers. AreAtNumbers some.now numbers.items) }
    ensures more { IfOk result (λ numbers. AreAtNumbers more.now numbers.items) }
{
    let mut numbers = Vec::new(alloc);
    add_numbers(&mut numbers, some)?;
    add_numbers(&mut numbers, more)?;
    Ok(in_order(numbers))
}

/// Adds the numbers of the prefixes of candidates.
fn add_numbers(numbers: &mut Vec<u64>, candidates: &[Candidate]) -> Result<(), OutOfMemory>
    ensures { OnOk result (numbers.new.items ≡ numbers.old.items ++ map number_of candidates.now) }
{
    for candidate in candidates {
        match numbers.push(candidate.prefix.to_number()) {
            Ok(()) => {}
            Err(_) => return Err(OutOfMemory),
        }
    }
    Ok(())
}

/// Moves rows into room that was taken for them, where it was.
fn move_to(rows: &mut Vec<Row>, room: Option<Vec<Row>>)
    requires empty { IfSome room (λ later. later.items ≡ []) }
    requires fits { IfSome room (λ later. length rows.old.items ≤ vec_capacity later) }
    ensures same { rows.new.items ≡ rows.old.items }
    ensures room { MatchOption room (vec_capacity rows.new ≡ vec_capacity rows.old)
        (λ later. vec_capacity later ≤ vec_capacity rows.new) }
{
    match room {
        Some(mut later) => {
            later.append(rows).unwrap();
            *rows = later;
        }
        None => {}
    }
}
