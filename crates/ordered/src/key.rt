//! What has a number.
ghost use Rattle.std.specs.Prelude.{◌≡◌, ℕ};

use isis_base::{LspId, Prefix};
use isis_tlv::PrefixItem;

/// An item that lies in a list by a number.
pub trait Keyed {
    // The item's number.
    ghost key: { Self → ℕ };

    /// The item's number.
    fn key(&self) -> u64
        ensures { result ≡ key self.now };
}

impl<V> Keyed for (u64, V) {
    ghost key = { λ pair. pair.0 };

    fn key(&self) -> u64 {
        self.0
    }
}

impl Keyed for LspId {
    ghost use Rattle.isis_base.specs.Identifiers.{lsp_number};

    ghost key = { lsp_number };

    fn key(&self) -> u64 {
        self.to_number()
    }
}

impl<V> Keyed for (Prefix, V) {
    ghost use Rattle.isis_base.specs.Prefixes.{prefix_number};

    ghost key = { λ pair. prefix_number pair.0 };

    fn key(&self) -> u64 {
        self.0.to_number()
    }
}

impl Keyed for PrefixItem {
    ghost use Rattle.isis_base.specs.Prefixes.{prefix_number};

    ghost key = { λ item. prefix_number item.prefix };

    fn key(&self) -> u64 {
        self.prefix.to_number()
    }
}
