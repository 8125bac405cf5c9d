//! A datagram that a desk opened.
ghost use Rattle.std.specs.Prelude.{◌≡◌, IfOk};
ghost use Rattle.std.specs.Result.{result_err};
ghost use Rattle.router_desk.specs.Opening.{LiesIn, result_in, seen_view};

use crate::cause::DropCause;
use crate::envelope::Envelope;
use crate::found::Found;
use crate::seen::Seen;
use isis_base::numbers::FRAME;
use isis_base::{Octets, OutOfMemory};
use std::marker::Model;

/// A datagram that came on a circuit, with what the tests that need no state found in it.
#[derive(Drop, Debug)]
pub struct Opened {
    circuit: u8,
    datagram: Octets,
    found: Result<Found, DropCause>,
}

impl Model for Opened {
    ghost use Rattle.router_desk.specs.Opening.{OpenedView, result_in, LiesIn};

    ghost Value = { OpenedView };

    ghost view = { λ o. record {
      circuit = o.circuit;
      octets = o.datagram;
      seen = result_in o.datagram o.found;
    } };

    ghost invariant = { λ o. LiesIn o.datagram o.found };
}

impl Opened {
    /// A datagram with what was found in it.
    pub(crate) fn new(circuit: u8, datagram: Octets, found: Result<Found, DropCause>) -> Opened
        requires { LiesIn datagram found }
        ensures { result ≡ record {
          circuit = circuit;
          octets = datagram;
          seen = result_in datagram found;
        } }
    {
        Opened {
            circuit,
            datagram,
            found,
        }
    }

    /// The number of the circuit that it came on, from 1.
    pub fn circuit(&self) -> u8
        ensures { result ≡ self.now.circuit }
    {
        self.circuit
    }

    /// The octets of the datagram.
    pub fn octets(&self) -> &[u8]
        ensures { result.now ≡ self.now.octets }
    {
        self.datagram.as_slice()
    }

    /// The cause of the first of these tests that failed; `None` exactly where none did.
    pub fn outcome(&self) -> Option<DropCause>
        ensures { result ≡ result_err self.now.seen }
    {
        match &self.found {
            Ok(_) => None,
            Err(cause) => Some(*cause),
        }
    }

    /// The datagram's sender and PDU, or the cause of the first of these tests that failed.
    /// Nothing is decoded again.
    pub fn seen(&self) -> Result<Seen<'_>, DropCause>
        ensures { seen_view result ≡ self.now.seen }
    {
        let found = match &self.found {
            Ok(found) => *found,
            Err(cause) => return Err(*cause),
        };
        let behind = &self.datagram.as_slice()[FRAME..];
        let header = usize::from(found.header.kind().header_length());
        let pdu = found.header.with_tlvs(&behind[header..found.end]);
        Ok(Seen {
            from: Envelope {
                snpa: found.sender,
                boot: found.boot,
            },
            pdu,
            octets: &behind[..found.end],
        })
    }

    /// An equal value.
    pub fn copy(&self) -> Result<Opened, OutOfMemory>
        ensures { IfOk result (λ copy. copy ≡ self.now) }
    {
        let datagram = self.datagram.copy()?;
        Ok(Opened {
            circuit: self.circuit,
            datagram,
            found: self.found,
        })
    }
}
