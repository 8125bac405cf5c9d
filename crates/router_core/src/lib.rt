//! One router: its state, and what becomes of it and is answered at each event.
//!
//! ISO 10589 7.3 and 8, RFC 5303 and RFC 5304, as model_router has them: `step` is the model's step,
//! state and answer, and what is sent are the datagrams of model_datagram. What a step can need
//! memory for is made before its first change, so a step that wants memory leaves the router as it
//! was (own).
//!
//! - `router.rt`: the router; `keeping.rt`: whether it keeps its routes; `event.rt`, `reply.rt`, `datagrams.rt`: events and answers
//! - `parts.rt`: its parts, and what they have in common
//! - `read.rt`: an event as what it says; `plan.rt`, `plan_hello.rt`, `plan_lsp.rt`, `plan_outbid.rt`, `plan_snp.rt`, `plan_change.rt`,
//!   `plan_second.rt`: what will be done; `told.rt`, `snp_told.rt`, `renewing.rt`, `movers.rt`, `aside.rt`,
//!   `refresh.rt`: what routes look at then; `commit.rt`: that is done
//! - `routes.rt`: what routes look at
//! - `making.rt`, `changes.rt`, `asked.rt`: how it starts, changes of its configuration, and what is
//!   asked of it; `together.rt`: parts made together; `prefixes.rt`, `prefix_list.rt`: its own prefixes, in order
//! - `taking.rt`, `hellos.rt`, `own.rt`: hellos are tested, and taken; `levels.rt`, `take.rt`: LSPs; `snps.rt`: sequence
//!   number PDUs
//! - `wanted.rt`: drafts of own LSPs that are wanted
//! - `second.rt`, `passing.rt`, `renewal.rt`, `quiet.rt`: a second; `marks.rt`, `faces.rt`: levels of which it is known that a
//!   second issues nothing but for age
//! - `due.rt`: what is due on a circuit; `pull.rt`, `pull_parts.rt`, `hello_sending.rt`, `sending.rt`: what is due is sent, planned too
//! - `at.rt`: one circuit of a list changes
//! - `reached.rt`: what always holds, as laws; `laws.rt`: what follows for all routers
//!
//! Choices (own):
//!
//! - A hello is tested when it is planned and when it is taken, so that its circuit needn't be copied
//!   (`Circuit::point_after`).
//! - What is due at a pull is asked once (`Due`), and the plan carries the answers, so that the commit asks nothing.
//! - A second that issues own LSPs is foreseen (`movers_by`): only the list of own LSPs is copied, and room is taken
//!   before the second passes.
//! - An SNP has a draft for each issued LSP it names; changed nodes are found on their own LSPs (`told_by_entries`,
//!   `Sight`); others cost look-ups.
//! - A mark stays at seconds in which no holding time ends, pulls, PDUs that change no key, and hellos that leave
//!   the adjacency's `face`.
//! - The router is a value of the machine's type that is reached (`IsReached`); router_desk's types are passed on,
//!   so that a caller names one crate.
#![tactic(auto)]

mod aside;
mod asked;
mod at;
mod changes;
mod commit;
mod datagrams;
mod due;
mod event;
mod faces;
mod hello_sending;
mod hellos;
mod keeping;
pub mod laws;
mod levels;
mod making;
mod marks;
mod movers;
mod own;
mod parts;
mod passing;
mod plan;
mod plan_change;
mod plan_hello;
mod plan_lsp;
mod plan_outbid;
mod plan_second;
mod plan_snp;
mod prefix_list;
mod prefixes;
mod pull;
mod pull_parts;
mod quiet;
mod reached;
mod read;
mod refresh;
mod renewal;
mod renewing;
mod reply;
mod router;
mod routes;
mod second;
mod sending;
mod snp_told;
mod snps;
mod take;
mod taking;
mod together;
mod told;
mod wanted;

pub use datagrams::Datagrams;
pub use event::NodeEvent;
pub use keeping::{Asked, Keeping, Kept};
pub use parts::Parts;
pub use reply::Reply;
pub use router::{Machine, Router};
pub use router_desk::{Change, CircuitConfig, Config, Desk, DropCause, DropName, Opened};
