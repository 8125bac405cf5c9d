//! Tests of a router's parts: what no clause says of its databases, its own LSPs, its adjacencies and the machine's words.
//!
//! There is nothing here but tests, so they are proved against the contracts of the crates that they are of.
//!
//! - `stores`: lsp_store
//! - `entries`: entries and books that the next five share; `books`, `rows`, `full_books`: flag_sync
//! - `ageing`: purge_ageing; `exchange`: snp_exchange
//! - `fragments`: lsp_fragments
//! - `neighbours`, `boots`: adjacency; `elections`: designated_is
//! - `causes`: model_router
#![tactic(auto)]

#[cfg(test)]
mod ageing;
#[cfg(test)]
mod books;
#[cfg(test)]
mod boots;
#[cfg(test)]
mod causes;
#[cfg(test)]
mod elections;
#[cfg(test)]
mod entries;
#[cfg(test)]
mod exchange;
#[cfg(test)]
mod fragments;
#[cfg(test)]
mod full_books;
#[cfg(test)]
mod neighbours;
#[cfg(test)]
mod rows;
#[cfg(test)]
mod stores;
