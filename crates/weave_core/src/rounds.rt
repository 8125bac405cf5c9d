//! The weaving, in rounds.
ghost use Rattle.std.specs.Prelude.{◌≡◌, drop, OnOk, IfOk};
ghost use Rattle.weave_core.specs.Scenes.{as_far, round_from, start, IsEnd};

use crate::medium::Medium;
use crate::moves::{Move, Track};
use isis_base::OutOfMemory;
use std::alloc::Global;

/// Weaves tracks in rounds over the parties, in order, each as far as it can, until a round goes
/// nowhere. What the tracks have left can't be woven.
///
/// At `OutOfMemory` some moves may have been made.
pub fn weave_tracks(alloc: Global, tracks: &mut [Track]) -> Result<Medium, OutOfMemory>
    ensures { IfOk result (λ told. IsEnd (start tracks.old)
        (record { tracks = tracks.new; told = told })) }
{
    let mut medium = Medium::new(alloc);
    'rounds: loop {
        let before = medium.len();
        round(tracks, &mut medium)?;
        if medium.len() == before {
            return Ok(medium);
        }
    }
}

/// A round.
fn round(tracks: &mut [Track], medium: &mut Medium) -> Result<(), OutOfMemory>
    ensures { OnOk result (round_from 0 tracks.old medium.old
        ≡ record { tracks = tracks.new; told = medium.new }) }
{
    for party in 0..tracks.len() {
        tracks[party].go(party, medium)?;
    }
    Ok(())
}

impl Track {
    /// A party goes as far as it can.
    fn go(&mut self, party: usize, medium: &mut Medium) -> Result<(), OutOfMemory>
        ensures { OnOk result (as_far party self.old medium.old
            ≡ record { left = self.new; told = medium.new }) }
    {
        go_on(&self.moves, &mut self.made, party, medium)
    }
}

/// A party goes as far as it can, from so many moves on.
fn go_on(
    moves: &[Move],
    made: &mut usize,
    party: usize,
    medium: &mut Medium,
) -> Result<(), OutOfMemory>
    ensures { OnOk result (as_far party (drop made.old moves.now) medium.old
        ≡ record { left = drop made.new moves.now; told = medium.new }) }
{
    while *made < moves.len() {
        let next = &moves[*made];
        let Some(turn) = medium.turn_of(party, next.needs) else {
            return Ok(());
        };
        medium.take(turn, next.sends.as_slice())?;
        *made += 1;
    }
    Ok(())
}
