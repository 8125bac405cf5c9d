//! The entries of a journal.
use isis_base::Octets;
use router_core::Datagrams;
use router_desk::{Change, DropName};

/// An event of an entry: a second passed; a datagram was taken on a circuit; a circuit was asked
/// for what it sends; or the configuration was changed. Circuits are numbered as in the text.
#[derive(Drop, Debug)]
pub enum WovenEvent {
    Second,
    Take { circuit: u8, octets: Octets },
    Pull { circuit: u8 },
    Change(Change),
}

/// The reply of an entry: the event was done; its datagram was dropped, for this cause; or it was
/// done, and these datagrams are sent.
#[derive(Drop, Debug)]
pub enum WovenReply {
    Done,
    Dropped(DropName),
    Send(Datagrams),
}

/// An entry of a journal.
#[derive(Drop, Debug)]
pub struct WovenEntry {
    pub event: WovenEvent,
    pub reply: WovenReply,
}
