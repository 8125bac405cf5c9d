//! The configuration of a daemon, read from its document.
//!
//! The octets of a document (TOML 1.1, as the kit's crate `toml` defines it) say the configuration
//! of a router, and for each of its circuits where its port is bound and whom it sends to. The
//! keys, their defaults and their ranges are this project's own, but that areas are 1 to 3 (ISO
//! 10589 7.1.5), metrics those of RFC 5305 3 and 4, and priorities of 7 bits (ISO 10589 9.5). The
//! first refusal is answered: that octets are no document, then an unknown key, then the keys one
//! after another in their order. `specs/Config.antt` says all of it, a line for each key.
//!
//! - `fault.rt`: why a configuration is refused, and where; `keys.rt`: the words and names of keys,
//!   and which keys each kind of table may have
//! - `settings.rt`: what a configuration says
//! - `document.rt`: the document that octets are the text of; `known.rt`: the test of all names
//! - `fields.rt`: what texts say; `numbers.rt`: numbers and addresses of texts
//! - `shapes.rt`: a key that is wanted or not, and its text, flag or number; `lists.rt`: lists of
//!   texts and of tables
//! - `circuits.rt`, `prefixes.rt`: the circuits and the prefixes; `named.rt`: prefixes of which
//!   none is named twice
//! - `reader.rt`: the call `read_config`
//! - `laws.rt`: addresses are read of their own texts alone; what an example says, and why others
//!   are refused: functions without a body, whose contracts are the laws
//!
//! Choices (own):
//!
//! - The definition has a combinator for each shape of a key; a list's kind is judged over all items, then its
//!   count, then its items.
//! - Octets that aren't UTF-8 are `text -`, by a test of its own; a prefix is named twice at the second table,
//!   before its metric.
#![tactic(auto)]

mod circuits;
mod document;
mod fault;
mod fields;
mod keys;
mod known;
pub mod laws;
mod lists;
mod named;
mod numbers;
mod prefixes;
mod reader;
mod settings;
mod shapes;

pub use fault::{ConfigFault, ConfigKey, ConfigKind};
pub use numbers::read_host;
pub use reader::read_config;
pub use settings::Settings;
