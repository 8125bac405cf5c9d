//! The document that octets are the text of.
ghost use Rattle.std.specs.Prelude.{◌≡◌, ◌⊎◌, Some, None, Ok, IfOk, IfErr};
ghost use Rattle.toml.specs.View.{table_view};
ghost use Rattle.daemon_config.specs.Documents.{document_in};
ghost use Rattle.daemon_config.specs.Steps.{or_refused, Stops};

use crate::fault::{ConfigFault, ConfigKey, ConfigKind, refused};
use std::alloc::Global;
use toml::Table;

/// Reads a document (TOML 1.1).
#[tactic(auto, unfolding(crate::specs::Documents::document_in))]
pub(crate) fn read_document(alloc: Global, octets: &[u8]) -> Result<Table, ConfigFault>
    ensures ok { IfOk result (λ table. document_in octets.now ≡ Some (table_view table)) }
    ensures err { IfErr result (λ fault.
        Stops fault (or_refused ConfigKind.Text ConfigKey.Document (document_in octets.now))) }
{
    let Ok(text) = std::str::from_utf8(octets) else {
        return refused(ConfigKind::Text, ConfigKey::Document);
    };
    match toml::table_from_str(alloc, text) {
        Ok(table) => Ok(table),
        Err(error) => {
            if error.is_memory() {
                return Err(ConfigFault::OutOfMemory);
            }
            refused(ConfigKind::Text, ConfigKey::Document)
        }
    }
}
