//! The state of the three-way handshake, the value of code 240.
ghost use Rattle.std.specs.Prelude.{◌≡◌, ◌≤◌, ◌++◌, length, IsSome, Ok, OnOk, OnErr};
ghost use Rattle.isis_tlv.specs.Items.{state_of, three_way_of};
ghost use Rattle.isis_tlv.specs.Spelling.{state_octet, three_way_octets, three_way_tlv};

use crate::codes;
use crate::fault::ValueFault;
use crate::laws::item_laws;
use crate::put::put_tlv;
use isis_base::fields::{system_at, u32_at};
use isis_base::{Draft, Octets, OutOfMemory, SystemId};

/// The state of a point-to-point adjacency (RFC 5303 3).
#[derive(Clone, Copy, Debug, PartialEq, Eq)]
pub enum Adj {
    Down,
    Initializing,
    Up,
}

/// The three-way state of a point-to-point adjacency (RFC 5303 3): the sender's state, its extended circuit ID,
/// and the neighbour that it hears, with that one's extended circuit ID.
#[derive(Clone, Copy, Debug, PartialEq, Eq)]
pub struct ThreeWay {
    pub state: Adj,
    pub own_id: Option<u32>,
    pub neighbour: Option<(SystemId, u32)>,
}

/// What a value of code 240 says (RFC 5303 3). A length other than 1, 5 or 15, or a state above 2, is a fault at 0.
pub fn three_way_value(value: &[u8]) -> Result<ThreeWay, ValueFault>
    ensures { result ≡ three_way_of value.now }
{
    let fault = ValueFault { place: 0 };
    let Some(state) = value.first() else {
        return Err(fault);
    };
    let Some(state) = state_of_octet(*state) else {
        return Err(fault);
    };
    let (own_id, neighbour) = match value.len() {
        1 => (None, None),
        5 => (Some(u32_at(value, 1)), None),
        15 => {
            let heard = (system_at(value, 5), u32_at(value, 11));
            (Some(u32_at(value, 1)), Some(heard))
        }
        _ => return Err(fault),
    };
    Ok(ThreeWay {
        state,
        own_id,
        neighbour,
    })
}

/// The state of an octet.
fn state_of_octet(octet: u8) -> Option<Adj>
    ensures { result ≡ state_of octet }
{
    match octet {
        0 => Some(Adj::Up),
        1 => Some(Adj::Initializing),
        2 => Some(Adj::Down),
        _ => None,
    }
}

/// The octet of a state.
fn octet_of_state(state: Adj) -> u8
    ensures { result ≡ state_octet state }
{
    match state {
        Adj::Up => 0,
        Adj::Initializing => 1,
        Adj::Down => 2,
    }
}

/// Adds a TLV of code 240. A neighbour is there only with an own ID. At `OutOfMemory` the list is as it was.
pub fn put_three_way(out: &mut Octets, value: &ThreeWay) -> Result<(), OutOfMemory>
    requires { IsSome value.now.neighbour → IsSome value.now.own_id }
    ensures ok { OnOk result (out.new ≡ out.old ++ three_way_tlv value.now) }
    ensures err { OnErr result (out.new ≡ out.old) }
    ensures reads { three_way_of (three_way_octets value.now) ≡ Ok value.now }
{
    let mut draft = Draft::new();
    draft.add(&[octet_of_state(value.state)]);
    if let Some(id) = value.own_id {
        draft.add(&id.to_be_bytes());
    }
    if let Some((system, id)) = value.neighbour {
        draft.add(&system.0);
        draft.add(&id.to_be_bytes());
    }
    item_laws();
    put_tlv(out, codes::THREE_WAY, draft.as_slice())
}
