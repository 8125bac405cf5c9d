//! A journal of a router.
use journal_text::WovenEntry;

/// A journal of a router of a network. Routers are numbered as the network numbers them.
#[derive(Drop, Debug)]
pub struct WovenJournal {
    pub router: usize,
    pub entries: Vec<WovenEntry>,
}
