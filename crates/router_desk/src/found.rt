//! What the tests found in a datagram that passed them.
use crate::header::Header;
use isis_base::Snpa;

/// What was found in a datagram: its sender and boot number, the fields of its PDU's header, and where the PDU
/// ends, counted from its start.
#[derive(Clone, Copy, Debug)]
pub(crate) struct Found {
    pub(crate) sender: Snpa,
    pub(crate) boot: u32,
    pub(crate) header: Header,
    pub(crate) end: usize,
}
