//! What a sequence number PDU says of one LSP.
ghost use Rattle.std.specs.Prelude.{◌≡◌, ◌↔◌, ℕ, IsNone, IfSome, IsTrue};
ghost use Rattle.isis_base.specs.Keys.{rank, entry_rank};

use crate::identifiers::LspId;
use crate::key::Key;

/// What a sequence number PDU says of one LSP (ISO 10589 9.10): its remaining lifetime in seconds, its ID,
/// sequence number and checksum.
#[derive(Clone, Copy, Debug, PartialEq, Eq, Hash)]
pub struct LspEntry {
    pub lifetime: u16,
    pub id: LspId,
    pub number: u32,
    pub checksum: u16,
}

impl LspEntry {
    /// The key that the entry names: none exactly at number 0, purged exactly at lifetime 0.
    pub fn key(&self) -> Option<Key>
        ensures rank { rank result ≡ entry_rank self.now }
        ensures none { IsNone result ↔ (self.now.number ≡ 0) }
        ensures number { IfSome result (λ key. key.number ≡ self.now.number) }
        ensures purged { IfSome result (λ key. IsTrue key.purged ↔ (self.now.lifetime ≡ 0)) }
    {
        if self.number == 0 {
            return None;
        }
        let purged = self.lifetime == 0;
        Some(Key {
            number: self.number,
            purged,
        })
    }
}
