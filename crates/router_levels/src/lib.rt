//! One level of a router: its database with flags, its own LSPs that are issued, and the LSP IDs
//! that it let go (ISO 10589 7.3.6, 7.3.15, 7.3.16).
//!
//! Each call is proved equal to its part of the router's model (model_router) on the whole level.
//! Own: what a call may need memory for is made before it, as drafts of own LSPs and as room; so an
//! SNP, a second and the renewal of own LSPs change the level in one stroke and can't fail.
//!
//! - `level_parts.rt`: the level, its room and its copy; `asked.rt`: what a router asks of it
//! - `circuits.rt`: circuits that open, close and are pulled
//! - `issues.rt`: own LSPs issued and purged; `take_lsp.rt`, `take_snp.rt`: what is heard
//! - `second.rt`: seconds; `wants.rt`: what is wanted; `renew.rt`: own LSPs are followed
//! - `laws.rt`: what is wanted stands in order
//!
//! Choices (own):
//!
//! - What is wanted is in order of LSP ID, so that a search finds what isn't wanted any longer.
#![tactic(auto)]

mod asked;
mod circuits;
mod issues;
mod laws;
mod level_parts;
mod renew;
mod second;
mod take_lsp;
mod take_snp;
mod wants;

pub use laws::wanted_rises;
pub use level_parts::LevelParts;
pub use wants::Wants;
