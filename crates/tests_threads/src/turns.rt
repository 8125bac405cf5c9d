//! The ticket lock of turn_lock: calls run once with ample memory, and what no clause says, as the words of a turn that is
//! out, as numbers, and turns taken by two threads.
ghost use Rattle.std.specs.Prelude.{◌≡◌, ◌+◌, ◌<◌, ◌≤◌, ◌++◌, [], ◌∷◌, IfOk};
ghost use Rattle.turn_lock.specs.Passes.{turns_left, splits, own, Belongs, IsFirst};

use std::alloc::Global;
use std::sync::Wait;
use std::thread;
use std::thread::Threads;
use turn_lock::{Noted, OutOfMemory, Pass, TurnLock, TurnOut};

/// A number that counts turns: it tells that many notes, and keeps none.
#[derive(Drop, Debug, PartialEq, Eq)]
struct Count {
    turns: u64,
}

impl Noted for Count {
    ghost use Rattle.std.specs.Prelude.{replicate};

    type Note = ();

    type Beginning = ();

    ghost notes = { λ count. replicate count.turns tt };

    ghost beginning = { λ _. tt };
}

/// Takes a turn, and answers the count that it found.
fn count_turn<R: Wait>(rt: &R, lock: &TurnLock<Count>, pass: Pass<Count>) -> (Pass<Count>, u64)
    requires lock { Belongs lock.now pass }
    requires left { 0 < turns_left pass }
    ensures lock { Belongs lock.now result.0 }
    ensures left { turns_left result.0 + 1 ≡ turns_left pass }
    ensures own { own result.0 ≡ own pass ++ result.1 ∷ [] }
{
    let (turn, count) = lock.enter(rt, pass);
    let turns = count.turns + 1;
    (lock.leave(turn, Count { turns }), count.turns)
}

/// Takes so many turns.
fn count_turns<R: Wait>(
    rt: &R,
    lock: &TurnLock<Count>,
    pass: Pass<Count>,
    turns: u64,
) -> Pass<Count>
    requires lock { Belongs lock.now pass }
    requires left { turns ≤ turns_left pass }
    ensures lock { Belongs lock.now result }
    ensures left { turns_left result + turns ≡ turns_left pass }
{
    let mut pass = pass;
    for _ in 0..turns {
        let (next, _) = count_turn(rt, lock, pass);
        pass = next;
    }
    pass
}

/// A lock of a count at 0, and its pass with so many turns.
fn counting(alloc: Global, turns: u64) -> Result<(TurnLock<Count>, Pass<Count>), OutOfMemory>
    ensures lock { IfOk result (λ r. Belongs r.0 r.1) }
    ensures pass { IfOk result (λ r. IsFirst turns r.1) }
{
    match TurnLock::new(alloc, Count { turns: 0 }, turns) {
        Ok(made) => Ok(made),
        Err((_count, error)) => Err(error),
    }
}

/// Whether a pass has so many turns left, that label, and was split so often.
fn says(pass: &Pass<Count>, left: u64, label: u64, splits: u64) -> bool {
    (pass.left() == left) & (pass.label() == label) & (pass.splits() == splits)
}

/// Splits a pass of three turns into four, takes two turns, and joins them; whether each says what it should.
fn split_and_joined<R: Wait>(
    rt: &R,
    lock: &TurnLock<Count>,
    pass: Pass<Count>,
) -> (Pass<Count>, bool)
    requires lock { Belongs lock.now pass }
    requires pass { IsFirst 3 pass }
    ensures { Belongs lock.now result.0 }
{
    let (first, second) = lock.split(pass, 1);
    let halves = says(&first, 2, 0, 1) & says(&second, 1, 1, 0);
    let (second, third) = lock.split(second, 0);
    let (first, fourth) = lock.split(first, 2);
    let quarters = says(&second, 1, 1, 1) & says(&third, 0, 1, 0);
    let others = says(&first, 0, 0, 2) & says(&fourth, 2, 2, 0);
    let (second, found) = count_turn(rt, lock, second);
    let (fourth, later) = count_turn(rt, lock, fourth);
    let turns = says(&second, 0, 1, 1) & says(&fourth, 1, 2, 0) & (found == 0) & (later == 1);
    let pass = lock.join(lock.join(first, second), lock.join(fourth, third));
    let whole = says(&pass, 1, 0, 2);
    (pass, halves & quarters & others & turns & whole)
}

/// Whether a lock is closed with a count of so many turns.
fn closes_at(lock: TurnLock<Count>, pass: Pass<Count>, turns: u64) -> bool
    requires { Belongs lock pass }
{
    match lock.close(pass) {
        Ok(count) => count == Count { turns },
        Err(_) => false,
    }
}

/// Whether a lock isn't closed, since two tickets were drawn and one turn served.
fn tells_turn_out(lock: TurnLock<Count>, pass: Pass<Count>) -> bool
    requires { Belongs lock pass }
{
    let told = TurnOut {
        tickets: 2,
        serving: 1,
    };
    match lock.close(pass) {
        Ok(_) => false,
        Err(out) => out == told,
    }
}

/// Takes a turn of two, enters the other and never leaves it; the count that is found then.
fn left_out<R: Wait>(rt: &R, lock: &TurnLock<Count>, pass: Pass<Count>) -> u64
    requires lock { Belongs lock.now pass }
    requires left { turns_left pass ≡ 2 }
{
    let (pass, _) = count_turn(rt, lock, pass);
    let (_turn, count) = lock.enter(rt, pass);
    count.turns
}

/// Whether a lock that is split, joined and closed tells what it should.
fn is_split_and_closed<R: Wait>(rt: &R, alloc: Global) -> Result<bool, OutOfMemory> {
    let (lock, pass) = counting(alloc, 3)?;
    let (pass, good) = split_and_joined(rt, &lock, pass);
    Ok(good & closes_at(lock, pass, 2))
}

/// Whether a turn that is out is told.
fn is_turn_told<R: Wait>(rt: &R, alloc: Global) -> Result<bool, OutOfMemory> {
    let (lock, pass) = counting(alloc, 3)?;
    let (first, second) = lock.split(pass, 1);
    let found = left_out(rt, &lock, first);
    Ok((found == 1) & tells_turn_out(lock, second))
}

/// Whether a pass that is let go after a turn keeps no turn out.
fn is_let_go<R: Wait>(rt: &R, alloc: Global) -> Result<bool, OutOfMemory> {
    let (lock, pass) = counting(alloc, 3)?;
    let (first, second) = lock.split(pass, 1);
    let (_first, _) = count_turn(rt, &lock, first);
    Ok(closes_at(lock, second, 1))
}

/// Takes so many turns in each of two threads.
fn two<R: Threads + Wait + Sync>(
    rt: &R,
    lock: &TurnLock<Count>,
    pass: Pass<Count>,
    turns: u64,
) -> Pass<Count>
    requires lock { Belongs lock.now pass }
    requires left { turns + turns ≤ turns_left pass }
    requires splits { splits pass ≡ 0 }
    ensures { Belongs lock.now result }
{
    let (first, second) = lock.split(pass, turns);
    let (first, second) = thread::join(
        rt,
        move || -> Pass<Count>
            requires { Belongs lock.now first × (turns ≤ turns_left first) }
            ensures { Belongs lock.entry.now result }
        { count_turns(rt, lock, first, turns) },
        move || -> Pass<Count>
            requires { Belongs lock.now second × (turns ≤ turns_left second) }
            ensures { Belongs lock.entry.now result }
        { count_turns(rt, lock, second, turns) },
    );
    lock.join(first, second)
}

/// Whether two threads take all of 20,000 turns.
fn are_all_taken<R: Threads + Wait + Sync>(rt: &R, alloc: Global) -> Result<bool, OutOfMemory> {
    let (lock, pass) = counting(alloc, 20_000)?;
    let pass = two(rt, &lock, pass, 10_000);
    Ok((pass.left() == 0) & closes_at(lock, pass, 20_000))
}

#[test]
fn a_lock_is_split_joined_and_closed(rt: HostRuntime) {
    assert_eq!(rt; is_split_and_closed(&rt, rt.alloc()), Ok(true));
}

#[test]
fn a_turn_that_is_out_is_told(rt: HostRuntime) {
    assert_eq!(rt; is_turn_told(&rt, rt.alloc()), Ok(true));
}

#[test]
fn a_pass_let_go_keeps_no_turn_out(rt: HostRuntime) {
    assert_eq!(rt; is_let_go(&rt, rt.alloc()), Ok(true));
}

#[test]
fn two_threads_take_all_turns(rt: HostRuntime) {
    assert_eq!(rt; are_all_taken(&rt, rt.alloc()), Ok(true));
}
