//! Tests of captured databases: what no clause says of loop-free alternates, of captures and of IPv6 routes.
//!
//! There is nothing here but tests, so they are proved against the contracts of the crates that they are of.
//!
//! - `graphs`: graphs from texts, and hops as texts; `sides`: alternates
//! - `lsps`: LSPs from texts; `captures`: what becomes of octets; `routes`: ipv6_reach
#![tactic(auto)]

#[cfg(test)]
mod captures;
#[cfg(test)]
mod graphs;
#[cfg(test)]
mod lsps;
#[cfg(test)]
mod routes;
#[cfg(test)]
mod sides;
