//! The checksum of link state PDUs: the two sums of Fletcher that ISO 8473 6.11 defines, which ISO 10589 7.3.11 takes over.
//!
//! A caller passes the octets that the checksum covers: of a link state PDU those from its ID to its end.
//! That it holds says nothing of the lifetime, nor of a checksum field of 0: a caller looks at both itself.
//! Each check octet that is written is 1 to 255, this project's choice: 255 stands where 0 would do as well.
//!
//! - `checksum`: whether the checksum holds, and the writing of the two octets that make it hold
//! - `sums`: the two sums modulo 255, reduced once in a block, and the two octets that make both 0
#![tactic(auto)]

mod checksum;
mod sums;

pub use checksum::{fill, holds};
