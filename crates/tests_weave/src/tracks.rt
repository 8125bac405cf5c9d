//! Tracks woven in rounds.
use isis_base::OutOfMemory;
use std::alloc::Global;
use weave_core::{Letters, Move, Track, Turn, weave_tracks};

/// A move: the letter that it needs, if any, and those that it sends.
type Step<'a> = (Option<usize>, &'a [usize]);

fn letters(alloc: Global, numbers: &[usize]) -> Result<Letters, OutOfMemory> {
    let mut letters = Letters::new(alloc);
    for number in numbers {
        match letters.push(*number) {
            Ok(()) => {}
            Err(error) => return Err(error),
        }
    }
    Ok(letters)
}

fn add_move(moves: &mut Vec<Move>, alloc: Global, step: Step) -> Result<(), OutOfMemory> {
    let sends = letters(alloc, step.1)?;
    moves.push(Move {
        needs: step.0,
        sends,
    })?;
    Ok(())
}

fn add_track(tracks: &mut Vec<Track>, alloc: Global, steps: &[Step]) -> Result<(), OutOfMemory> {
    let mut moves = Vec::new(alloc);
    for step in steps {
        match add_move(&mut moves, alloc, *step) {
            Ok(()) => {}
            Err(error) => return Err(error),
        }
    }
    tracks.push(Track::new(moves))?;
    Ok(())
}

/// Whether these are the turns: the party, and which of those sent it takes.
fn are(turns: &[Turn], wanted: &[(usize, Option<usize>)]) -> bool {
    if turns.len() != wanted.len() {
        return false;
    }
    let mut same = true;
    for place in 0..turns.len() {
        same &= (turns[place].party, turns[place].taken) == wanted[place];
    }
    same
}

/// Whether two tracks have so many moves left.
fn leave(tracks: &[Track], wanted: (usize, usize)) -> bool {
    match tracks {
        [one, two] => (one.left(), two.left()) == wanted,
        _ => false,
    }
}

/// Whether the rounds make these turns, and leave so many moves on the two tracks.
fn weaves(
    alloc: Global,
    one: &[Step],
    two: &[Step],
    wanted: &[(usize, Option<usize>)],
    left: (usize, usize),
) -> Result<bool, OutOfMemory> {
    let mut tracks = Vec::new(alloc);
    add_track(&mut tracks, alloc, one)?;
    add_track(&mut tracks, alloc, two)?;
    let medium = weave_tracks(alloc, &mut tracks)?;
    Ok(are(medium.turns(), wanted) && leave(tracks.as_slice(), left))
}

/// What is sent later is taken in the next round; of two with one letter the first.
#[test]
fn takes_what_another_sent(rt: HostRuntime) {
    let needs: &[Step] = &[(Some(0), &[])];
    let sends: &[Step] = &[(None, &[1, 0, 0])];
    let turns = [(1, None), (0, Some(2))];
    assert_eq!(rt; weaves(rt.alloc(), needs, sends, &turns, (0, 0)), Ok(true));
}

/// A party doesn't take its own letter, and moves behind one that is stuck aren't made.
#[test]
fn leaves_what_is_stuck(rt: HostRuntime) {
    let own: &[Step] = &[(None, &[0]), (Some(0), &[1]), (None, &[1])];
    let waits: &[Step] = &[(Some(0), &[]), (Some(1), &[])];
    let turns = [(0, None), (1, Some(1))];
    assert_eq!(rt; weaves(rt.alloc(), own, waits, &turns, (2, 1)), Ok(true));
}
