//! Journals of routers as definitions: what their replay says, and which schedules of a network
//! they are.
//!
//! A journal of a router has an entry for each event: what was done, and what was answered. It is
//! replayed by the machine (model_router). An entry has a fault where its event doesn't fit the
//! router's state, or where the machine answers otherwise. A router that restarted has several
//! journals. A schedule of a network (model_network) is a weaving of its routers' journals where
//! each router's events are those of its journals, with a restart between two, and each take is a
//! delivery of an earlier datagram with those octets, sent on that link by another router. A front
//! is a schedule of prefixes of them.
//!
//! A datagram stays where it was sent, also when routers restart. So a router that goes on takes
//! nothing from another, and rounds in which each goes as far as it can (weave_core) end in a front
//! that goes farthest: where they leave something there is no weaving. For that each entry is a
//! move, and each take needs a letter, which stands for octets on a link. The words are this
//! project's own.
//!
//! - `laws.rt`: the laws, functions without a body whose contracts hold for whatever is given
#![tactic(auto)]

pub mod laws;
