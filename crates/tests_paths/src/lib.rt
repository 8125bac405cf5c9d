//! Tests of paths: what no clause says of graphs, distances, next hops, routes and what one level tells the other.
//!
//! There is nothing here but tests, so they are proved against the contracts of the crates that they are of.
//!
//! - `graphs`: graphs, their distances and hops as texts, which the others share; `trees`: spf_tree
//! - `repairs`: spf_repair
//! - `lsps`: databases of a few LSPs, which `views` and `outlooks` share; `views`: lsp_view
//! - `offers`: what is offered of prefixes, and its routes; `tables`: route_table; `leaks`: route_leaking
//! - `outlooks`: router_routes
#![tactic(auto)]

#[cfg(test)]
mod graphs;
#[cfg(test)]
mod leaks;
#[cfg(test)]
mod lsps;
#[cfg(test)]
mod offers;
#[cfg(test)]
mod outlooks;
#[cfg(test)]
mod repairs;
#[cfg(test)]
mod tables;
#[cfg(test)]
mod trees;
#[cfg(test)]
mod views;
