//! Where things stand in lists: an end on a link, a router's boot, and a value that is put in.
ghost use Rattle.std.specs.Prelude.{◌≡◌, ◌<◌, length};
ghost use Rattle.model_router.specs.Places.{nth, with_nth};
ghost use Rattle.std.specs.Option.{option_copied};
ghost use Rattle.model_router.specs.Books.{risen};
ghost use Rattle.model_network.specs.Networks.{place_on as place_among, place_in, numbered};
ghost use Rattle.model_network.specs.RunLines.{ends_of};
ghost use Rattle.model_network.specs.Runs.{boot_of};
ghost use Rattle.network_lab.specs.LabTakings.{counts_at};

use crate::sent::{Changes, SentDatagram};
use isis_base::{Level, List};
use model_network::End;
use router_core::{Keeping, Router};

/// The place of a router's circuit among ends.
pub(crate) fn place_on(ends: &[End], router: usize) -> Option<usize>
    ensures { result ≡ place_among ends.now router }
{
    for end in ends {
        if end.router == router {
            return Some(end.place);
        }
    }
    None
}

/// The place of a router's circuit on a link.
pub(crate) fn place_at(links: &[List<End>], link: usize, router: usize) -> Option<usize>
    ensures { result ≡ place_in (nth links.now link) router }
{
    match links.get(link) {
        Some(ends) => place_on(ends.as_slice(), router),
        None => None,
    }
}

/// The number of ends of a link.
pub(crate) fn count_at(links: &[List<End>], link: usize) -> usize
    ensures { result ≡ length (ends_of (nth links.now link)) }
{
    match links.get(link) {
        Some(ends) => ends.as_slice().len(),
        None => 0,
    }
}

/// What stands at a place of a list.
pub(crate) fn number_at(list: &[usize], place: usize) -> Option<usize>
    ensures { result ≡ nth list.now place }
{
    match list.get(place) {
        Some(number) => Some(*number),
        None => None,
    }
}

/// A datagram by its number, counted from 1.
pub(crate) fn sent_at(sent: &[SentDatagram], number: usize) -> Option<&SentDatagram>
    ensures { option_copied result ≡ numbered sent.now number }
{
    if number == 0 {
        return None;
    }
    sent.get(number - 1)
}

/// One more, which stays at its type's last value.
pub(crate) fn one_more(count: u64) -> u64
    ensures { result ≡ risen count }
{
    if count < u64::MAX { count + 1 } else { count }
}

/// The boot of a router, 0 where it isn't there.
pub(crate) fn boot_at<K: Keeping>(routers: &[Router<K>], router: usize) -> u32
    ensures { result ≡ boot_of (nth routers.now router) }
{
    match routers.get(router) {
        Some(router) => router.boot(),
        None => 0,
    }
}

/// The counts of changed keys of a router, 0 where it isn't there.
pub(crate) fn changes_at<K: Keeping>(routers: &[Router<K>], router: usize) -> Changes
    ensures { result ≡ counts_at (nth routers.now router) }
{
    match routers.get(router) {
        Some(router) => Changes {
            one: router.changes(Level::One),
            two: router.changes(Level::Two),
        },
        None => Changes { one: 0, two: 0 },
    }
}

/// Another value at a place.
pub(crate) fn put_at<T: Drop>(list: &mut Vec<T>, place: usize, value: T)
    requires { place < length list.old.items }
    ensures { list.new.items ≡ with_nth list.old.items place value }
{
    list[place] = value;
}
