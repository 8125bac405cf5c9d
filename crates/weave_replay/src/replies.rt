//! Whether a router's reply is what an entry says.
ghost use Rattle.std.specs.Prelude.{◌≡◌, ◌↔◌, ◌<◌, true, length, slice_get};
ghost use Rattle.weave_replay.specs.Entries.{answer_of};
ghost use Rattle.weave_replay.specs.Outcomes.{answer_in};

use journal_text::WovenReply;
use router_core::{Datagrams, Reply};

/// Whether a reply is what an entry says; drops are compared by their words.
pub(crate) fn says(reply: &Reply, said: &WovenReply) -> bool
    ensures { (result ≡ true) ↔ (answer_in reply.now ≡ answer_of said.now) }
{
    match reply {
        Reply::Done => match said {
            WovenReply::Done => true,
            WovenReply::Dropped(_) | WovenReply::Send(_) => false,
        },
        Reply::Dropped(cause) => match said {
            WovenReply::Dropped(name) => cause.name() == *name,
            WovenReply::Done | WovenReply::Send(_) => false,
        },
        Reply::Send(datagrams) => match said {
            WovenReply::Send(others) => are_same(datagrams, others),
            WovenReply::Done | WovenReply::Dropped(_) => false,
        },
    }
}

/// Whether two lists of datagrams are the same.
fn are_same(datagrams: &Datagrams, others: &Datagrams) -> bool
    ensures { (result ≡ true) ↔ (datagrams.now ≡ others.now) }
{
    if datagrams.len() != others.len() {
        return false;
    }
    for place in 0..datagrams.len() {
        if !same_at(datagrams, others, place) {
            return false;
        }
    }
    true
}

/// Whether two lists of datagrams have the same at a place.
fn same_at(datagrams: &Datagrams, others: &Datagrams, place: usize) -> bool
    requires size { length datagrams.now ≡ length others.now }
    requires there { place < length datagrams.now }
    ensures { (result ≡ true) ↔ (slice_get datagrams.now place ≡ slice_get others.now place) }
{
    let Some(datagram) = datagrams.get(place) else {
        return true;
    };
    let Some(other) = others.get(place) else {
        return true;
    };
    datagram == other
}
