//! What the tables ask of what is held, and of what is heard.
ghost use Rattle.std.specs.Prelude.{◌≡◌, ◌==◌, nat_lt, Some, None};
ghost use Rattle.isis_base.specs.Keys.{rank};
ghost use Rattle.model_router.specs.Ranks.{is_live, is_purge};
ghost use Rattle.model_router.specs.LspTable.{is_issued, is_unissued, is_newer, differs};
ghost use Rattle.flag_sync.specs.Known.{known_cell};

use isis_base::{Key, Order3, newer};
use model_router::Whose;

/// What is held of an LSP ID, so far as the tables ask: the key, and the checksum, which is 0
/// where nothing is held.
#[derive(Clone, Copy, Debug)]
pub(crate) struct Known {
    pub(crate) key: Option<Key>,
    pub(crate) checksum: u16,
}

impl Known {
    /// Whether a key is newer than the one held (ISO 10589 7.3.16.1).
    pub(crate) fn is_older_than(&self, key: Option<Key>) -> bool
        ensures { result ≡ is_newer (Some (known_cell self.now)) (rank key) }
    {
        match newer(self.key, key) {
            Order3::Older => true,
            Order3::Same => false,
            Order3::Newer => false,
        }
    }

    /// Whether a key is the one held.
    pub(crate) fn is(&self, key: Option<Key>) -> bool
        ensures { result ≡ (rank self.now.key == rank key) }
    {
        match newer(self.key, key) {
            Order3::Older => false,
            Order3::Same => true,
            Order3::Newer => false,
        }
    }

    /// Whether a key is older than the one held.
    pub(crate) fn is_newer_than(&self, key: Option<Key>) -> bool
        ensures { result ≡ nat_lt (rank key) (rank self.now.key) }
    {
        match newer(self.key, key) {
            Order3::Older => false,
            Order3::Same => false,
            Order3::Newer => true,
        }
    }

    /// Whether no key is held.
    pub(crate) fn is_none(&self) -> bool
        ensures { result ≡ (rank self.now.key == 0) }
    {
        self.key.is_none()
    }

    /// Whether both are live and of one number, and the checksums differ (ISO 10589 7.3.16.2).
    pub(crate) fn differs_from(&self, key: Option<Key>, checksum: u16) -> bool
        ensures { result ≡ differs (Some (known_cell self.now)) (rank key) checksum }
    {
        has_live(key) && self.is(key) && self.checksum != checksum
    }
}

/// Whether a key is live.
pub(crate) fn has_live(key: Option<Key>) -> bool
    ensures { result ≡ is_live (rank key) }
{
    match key {
        Some(key) => !key.purged,
        None => false,
    }
}

/// Whether a key is a purge's.
pub(crate) fn has_purge(key: Option<Key>) -> bool
    ensures { result ≡ is_purge (rank key) }
{
    match key {
        Some(key) => key.purged,
        None => false,
    }
}

/// Whether an LSP is one's own and issued.
pub(crate) fn issued(whose: Whose) -> bool
    ensures { result ≡ is_issued whose }
{
    match whose {
        Whose::Other => false,
        Whose::Issued => true,
        Whose::Unissued => false,
    }
}

/// Whether an LSP is of one's own system and not issued.
pub(crate) fn unissued(whose: Whose) -> bool
    ensures { result ≡ is_unissued whose }
{
    match whose {
        Whose::Other => false,
        Whose::Issued => false,
        Whose::Unissued => true,
    }
}
