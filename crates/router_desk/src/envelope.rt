//! What a datagram's frame says of its sender.
use isis_base::Snpa;

/// What a datagram's frame says of its sender: its SNPA and its boot number (own).
#[derive(Clone, Copy, Debug)]
pub struct Envelope {
    pub snpa: Snpa,
    pub boot: u32,
}
