//! An entry as a move.
ghost use Rattle.std.specs.Prelude.{◌≡◌, ℕ, List, length, map, slice_get, IfOk, IfSome};
ghost use Rattle.model_network.specs.declared.end.End as end;
ghost use Rattle.weave_core.specs.Codes.{code_of};
ghost use Rattle.weave_model.specs.Coding.{sends_of, IsQuiet, IsMoveCode};
ghost use Rattle.weave_model.specs.Weavings.{Does};
ghost use Rattle.weave.specs.Coded.{ArePorts, HasPort, IsLettered};
ghost use Rattle.weave_replay.specs.Entries.{entry_of, answer_of};

use isis_base::OutOfMemory;
use std::alloc::Global;
use weave_core::{LetterBook, Letters, Move};
use weave_replay::{Datagrams, WovenEntry, WovenEvent, WovenReply};

/// A move that needs and sends nothing.
pub(crate) fn quiet(alloc: Global) -> Move
    ensures { IsQuiet result }
{
    Move {
        needs: None,
        sends: Letters::new(alloc),
    }
}

/// An entry of a router as a move, by the links of its circuits.
pub(crate) fn move_of(
    alloc: Global,
    book: &LetterBook<'_>,
    ports: &[usize],
    entry: &WovenEntry,
) -> Result<Move, OutOfMemory>
    requires on { HasPort ports.now (entry_of entry.now).deed }
    requires lettered { IsLettered book.now ports.now (entry_of entry.now).deed }
    ensures { IfOk result (λ m. (links : List (List end.End)) (router : ℕ)
        → ArePorts links router ports.now → IsMoveCode (code_of book.now) (length book.now)
        links router (Does (entry_of entry.now)) m) }
{
    match &entry.event {
        WovenEvent::Second | WovenEvent::Change(_) => Ok(quiet(alloc)),
        WovenEvent::Pull { circuit } => {
            let link = ports[usize::from(*circuit) - 1];
            match sends_on(alloc, book, link, &entry.reply) {
                Ok(sends) => Ok(Move { needs: None, sends }),
                Err(error) => Err(error),
            }
        }
        WovenEvent::Take { circuit, octets } => {
            let link = ports[usize::from(*circuit) - 1];
            let letter = book.code(link, octets.as_slice());
            match sends_on(alloc, book, link, &entry.reply) {
                Ok(sends) => Ok(Move {
                    needs: Some(letter),
                    sends,
                }),
                Err(error) => Err(error),
            }
        }
    }
}

/// The letters of what a reply sends on a link.
fn sends_on(
    alloc: Global,
    book: &LetterBook<'_>,
    link: usize,
    reply: &WovenReply,
) -> Result<Letters, OutOfMemory>
    ensures { IfOk result (λ sends. sends
        ≡ map (code_of book.now link) (sends_of (answer_of reply.now))) }
{
    match reply {
        WovenReply::Done | WovenReply::Dropped(_) => Ok(Letters::new(alloc)),
        WovenReply::Send(datagrams) => letters_of(alloc, book, link, datagrams),
    }
}

/// The letters of datagrams on a link.
fn letters_of(
    alloc: Global,
    book: &LetterBook<'_>,
    link: usize,
    datagrams: &Datagrams,
) -> Result<Letters, OutOfMemory>
    ensures { IfOk result (λ sends. sends ≡ map (code_of book.now link) datagrams.now) }
{
    let mut letters = Letters::new(alloc);
    for place in 0..datagrams.len() {
        match letters.push(letter_at(book, link, datagrams, place)) {
            Ok(()) => {}
            Err(error) => return Err(error),
        }
    }
    Ok(letters)
}

/// The letter of the datagram at a place.
fn letter_at(book: &LetterBook<'_>, link: usize, datagrams: &Datagrams, place: usize) -> usize
    ensures { IfSome (slice_get datagrams.now place)
        (λ octets. result ≡ code_of book.now link octets) }
{
    match datagrams.get(place) {
        Some(octets) => book.code(link, octets),
        None => 0,
    }
}
