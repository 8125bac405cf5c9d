//! A step of a router.
use journal_text::WovenEntry;

/// A step of a router: an entry of a journal, or the restart between two journals.
#[derive(Clone, Copy, Debug)]
pub(crate) enum Step<'a> {
    Entry(&'a WovenEntry),
    Restart,
}
