//! The report of a network of routers, made as it is written.
//!
//! - `router_lines.rt`, `route_lines.rt`: the lines of a router, and of its routes
//! - `link_lines.rt`, `lan_lines.rt`: the lines of a link, and of a LAN's members; `ends.rt`: the circuits at their ends
//! - `doubled_lines.rt`: the lines of doubled LSP IDs
//! - `names.rt`: the names of routers and links
//! - `left.rt`: what is still to come of a report; `report.rt`: the report
#![tactic(auto)]

mod doubled_lines;
mod ends;
mod lan_lines;
mod left;
mod link_lines;
mod names;
mod report;
mod route_lines;
mod router_lines;

pub use left::LabReport;
