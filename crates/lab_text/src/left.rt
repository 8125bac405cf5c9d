//! What is still to come of a report.
ghost use Rattle.std.specs.Prelude.{◌≤◌, ◌+◌, length};

use isis_base::{Key, LspId};
use lab_keys::KeyNet;

/// The report of a network: its head, then the keys of each router, by LSP ID.
#[derive(Drop)]
pub(crate) struct KeysReport<'n, 't> {
    pub net: &'n KeyNet,
    /// The head, where it is still to come.
    pub head: &'static [u8],
    /// The router whose keys come next.
    pub name: &'t str,
    pub entries: &'n [(LspId, Key)],
    /// The routers behind it: the number of the first of them, and their names.
    pub router: usize,
    pub names: &'n [&'t str],
    pub ghost named: { router + length names.now ≤ net.now.routers },
    pub ghost few: { router + length names.now ≤ 1024 },
}
