//! Whether the replies of journals send too many datagrams.
ghost use Rattle.std.specs.Prelude.{◌≡◌, ◌<◌, ◌+◌, length, map, nat_lt, MatchOption};
ghost use Rattle.weave_model.specs.Coding.{sends_of};
ghost use Rattle.weave_replay.specs.Entries.{entry_of, answer_of};
ghost use Rattle.weave_replay.specs.Replays.{sent_by, sent_in};

use crate::journal::WovenJournal;
use journal_text::{WovenEntry, WovenReply};

/// The most datagrams that are sent (own).
const DATAGRAM_LIMIT: usize = 262_144;

/// Whether the replies of these journals send more than 262,144.
pub(crate) fn send_too_many(journals: &[WovenJournal]) -> bool
    ensures { result ≡ nat_lt 262144 (sent_in journals.now) }
{
    let mut room = DATAGRAM_LIMIT;
    let mut left = journals;
    while let [journal, more @ ..] = left {
        room = match room_behind(room, journal.entries.as_slice()) {
            Some(room) => room,
            None => return true,
        };
        left = more;
    }
    false
}

/// How many more may be sent behind these entries; none where they send more than may be sent.
fn room_behind(room: usize, entries: &[WovenEntry]) -> Option<usize>
    ensures { MatchOption result (room < sent_by (map entry_of entries.now))
        (λ rest. rest + sent_by (map entry_of entries.now) ≡ room) }
{
    let mut rest = room;
    let mut left = entries;
    while let [entry, more @ ..] = left {
        let sent = sent_of(&entry.reply);
        if rest < sent {
            return None;
        }
        rest -= sent;
        left = more;
    }
    Some(rest)
}

/// How many datagrams a reply sends.
fn sent_of(reply: &WovenReply) -> usize
    ensures { result ≡ length (sends_of (answer_of reply.now)) }
{
    match reply {
        WovenReply::Done | WovenReply::Dropped(_) => 0,
        WovenReply::Send(datagrams) => datagrams.len(),
    }
}
