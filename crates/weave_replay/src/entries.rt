//! The entries of a journal, replayed.
ghost use Rattle.std.specs.Prelude.{◌≡◌, length, map, IfOk};
ghost use Rattle.weave_replay.specs.Entries.{entry_of};
ghost use Rattle.weave_replay.specs.Outcomes.{IsOutcome, IsReplayed};

use crate::fitting::{event_of, fits};
use crate::replies::says;
use isis_base::OutOfMemory;
use journal_text::WovenEntry;
use router_core::Router;

/// What became of an entry: it is good, or it has a fault.
#[derive(Clone, Copy, Debug)]
pub enum Outcome {
    Good,
    OfEvent,
    OfReply,
}

/// What became of a journal: all its entries are good, or the first with a fault, counted from 1.
#[derive(Clone, Copy, Debug)]
pub(crate) enum Replayed {
    Good,
    OfEvent(usize),
    OfReply(usize),
}

/// Replays a journal's entries, up to the first fault.
pub(crate) fn replay_entries(
    router: &mut Router,
    entries: &[WovenEntry],
) -> Result<Replayed, OutOfMemory>
    ensures { IfOk result
        (λ replayed. IsReplayed router.old router.new (map entry_of entries.now) replayed) }
{
    for place in 0..entries.len() {
        match replay_entry(router, &entries[place]) {
            Ok(Outcome::Good) => {}
            Ok(Outcome::OfEvent) => return Ok(Replayed::OfEvent(place + 1)),
            Ok(Outcome::OfReply) => return Ok(Replayed::OfReply(place + 1)),
            Err(error) => return Err(error),
        }
    }
    Ok(Replayed::Good)
}

/// Replays an entry.
pub fn replay_entry(router: &mut Router, entry: &WovenEntry) -> Result<Outcome, OutOfMemory>
    ensures { IfOk result
        (λ outcome. IsOutcome router.old router.new (entry_of entry.now) outcome) }
{
    if !fits(router, &entry.event) {
        return Ok(Outcome::OfEvent);
    }
    let event = match event_of(router, &entry.event) {
        Ok(event) => event,
        Err(error) => return Err(error),
    };
    let reply = match router.step(event) {
        Ok(reply) => reply,
        Err(error) => return Err(error),
    };
    if !says(&reply, &entry.reply) {
        return Ok(Outcome::OfReply);
    }
    Ok(Outcome::Good)
}
