//! Ports over UDP sockets (RFC 768).
ghost use Rattle.std.specs.Prelude.{◌≡◌, ◌↔◌, map, [], Some, IfSome, IsTrue, IsSomeAnd, Contains};
ghost use Rattle.daemon_edge.specs.Addresses.{address_of};
ghost use Rattle.daemon_edge.specs.Closings.{closing, opened_at};
ghost use Rattle.daemon_edge.specs.Ports.{Fits};
ghost use Rattle.daemon_edge.specs.declared.udp.UdpPort as declared;

use crate::other_boot::is_of_other_boot;
use crate::place::{Address, CircuitPlace};
use crate::port::{Offered, Port, Taken};
use crate::ports::{Ports, Refused};
use note_list::{NoteList, PieceList};
use std::io::ErrorKind;
use std::net::{Ipv4Addr, Net, SocketAddr, SocketAddrV4, UdpSocket};
use std::time::{Clock, Duration};

/// How many milliseconds a take waits at most (own).
const WAIT: u64 = 100;

/// How many datagrams one take passes over (own).
const PASSED: usize = 1024;

impl Address {
    fn socket(self) -> SocketAddr
        ensures { address_of result ≡ Some self }
    {
        SocketAddr::V4(SocketAddrV4::new(Ipv4Addr::from(self.host), self.port))
    }
}

/// A socket, and how long a look at it waits as it is set; nothing was set before the first look.
#[derive(Drop)]
struct Listener {
    socket: UdpSocket,
    waits: Option<Duration>,
}

impl Listener {
    /// The next datagram that is the router's, within the time that a take has.
    fn take_within<R: Clock>(&mut self, rt: &R, place: &CircuitPlace, buffer: &mut [u8]) -> Taken
        ensures { Fits result buffer.new }
    {
        let Ok(start) = rt.monotonic() else {
            return Taken::Failed;
        };
        let mut left = Duration::from_millis(WAIT);
        for _ in 0..PASSED {
            if let Some(taken) = self.receive(place, left, buffer) {
                return taken;
            }
            let Ok(now) = rt.monotonic() else {
                return Taken::Failed;
            };
            left = Duration::from_millis(WAIT).saturating_sub(now.saturating_sub(start));
            if left.is_zero() {
                return Taken::NotYet;
            }
        }
        Taken::NotYet
    }

    /// What comes within a time; `None` where it is passed over.
    fn receive(&mut self, place: &CircuitPlace, wait: Duration, buffer: &mut [u8]) -> Option<Taken>
        ensures { IfSome result (λ taken. Fits taken buffer.new) }
    {
        if !self.sets(wait) {
            return Some(Taken::Failed);
        }
        match self.socket.recv_from(buffer) {
            Ok((count, from)) => {
                let is_passed = !is_one_of(from, place.peers.as_slice())
                    || (place.native && is_of_other_boot(&buffer[..count]));
                if is_passed {
                    None
                } else {
                    Some(Taken::Got(count))
                }
            }
            Err(error) => match error.kind() {
                ErrorKind::WouldBlock | ErrorKind::TimedOut | ErrorKind::Interrupted => Some(
                    Taken::NotYet,
                ),
                _ => Some(Taken::Failed),
            },
        }
    }

    /// Has a look wait so long at most, and tells whether it does. The system is asked only where it isn't set so.
    fn sets(&mut self, wait: Duration) -> bool {
        if self.waits == Some(wait) {
            return true;
        }
        if self.socket.set_read_timeout(Some(wait)).is_err() {
            self.waits = None;
            return false;
        }
        self.waits = Some(wait);
        true
    }
}

/// Whether an address is one of the peers'.
fn is_one_of(from: SocketAddr, peers: &[Address]) -> bool
    ensures { IsTrue result ↔ IsSomeAnd (address_of from) (λ address. Contains peers.now address) }
{
    match heard_from(from) {
        Some(address) => peers.contains(&address),
        None => false,
    }
}

/// The address and the port that a datagram came from, where they are of IPv4.
fn heard_from(from: SocketAddr) -> Option<Address>
    ensures { result ≡ address_of from }
{
    match from {
        SocketAddr::V4(at) => Some(Address {
            host: u32::from(*at.ip()),
            port: at.port(),
        }),
        SocketAddr::V6(_) => None,
    }
}

/// A port over a UDP socket. A take waits 100 ms at most, and passes over what doesn't come from one of the circuit's
/// peers, and where these are native, hellos that name another boot number than their frame; an offer goes to each peer.
#[derive(Drop)]
pub struct UdpPort {
    listener: Listener,
    circuit: u8,
    place: CircuitPlace,
    given: PieceList<u8>,
    offered: PieceList<u8>,
    asked: u64,
    faults: u64,
}

impl Port for UdpPort {
    ghost opening = { λ p. opened_at p.circuit p.place };

    ghost given = { λ p. p.given.pieces };

    ghost offered = { λ p. p.offered.pieces };

    ghost asked = { λ p. p.asked };

    ghost faults = { λ p. p.faults };

    fn take<R: Clock>(&mut self, rt: &R, buffer: &mut [u8]) -> Taken {
        self.asked = self.asked.saturating_add(1);
        let taken = self.listener.take_within(rt, &self.place, buffer);
        match taken {
            Taken::Got(count) => self.given.push(&buffer[..count]),
            Taken::NotYet => {}
            Taken::Failed => self.faults = self.faults.saturating_add(1),
        }
        taken
    }

    fn offer(&mut self, datagram: &[u8]) -> Offered {
        self.offered.push(datagram);
        let mut answer = Offered::Sent;
        for peer in self.place.peers.as_slice() {
            if self
                .listener
                .socket
                .send_to(datagram, peer.socket())
                .is_err()
            {
                answer = Offered::Failed;
            }
        }
        if answer == Offered::Failed {
            self.faults = self.faults.saturating_add(1);
        }
        answer
    }
}

/// What opens UDP ports, and closes them. An opening is refused where the system refuses the socket.
#[derive(Drop)]
pub struct UdpPorts {
    opened: u64,
    faults: u64,
    closed: NoteList<UdpPort, ()>,
}

impl UdpPorts {
    /// Nothing is opened yet.
    pub fn new() -> UdpPorts
        ensures opened { ⟦<UdpPorts as Ports>⟧.opened result ≡ 0 }
        ensures closed { ⟦<UdpPorts as Ports>⟧.closed result ≡ [] }
        ensures faults { ⟦<UdpPorts as Ports>⟧.faults result ≡ 0 }
    {
        UdpPorts {
            opened: 0,
            faults: 0,
            closed: NoteList::new(&()),
        }
    }
}

impl Ports for UdpPorts {
    type Port = UdpPort;

    ghost opened = { λ p. p.opened };

    ghost closed = { λ p. map (λ (c : declared.UdpPort). closing (opened_at c.circuit c.place)
        c.given.pieces c.offered.pieces c.asked) p.closed.items };

    ghost faults = { λ p. p.faults };

    fn open<R: Net>(
        &mut self,
        rt: &R,
        circuit: u8,
        place: CircuitPlace,
    ) -> Result<UdpPort, Refused> {
        match UdpSocket::bind(rt, place.bind.socket()) {
            Ok(socket) => {
                self.opened = self.opened.saturating_add(1);
                Ok(UdpPort {
                    listener: Listener {
                        socket,
                        waits: None,
                    },
                    circuit,
                    place,
                    given: PieceList::new(),
                    offered: PieceList::new(),
                    asked: 0,
                    faults: 0,
                })
            }
            Err(_) => {
                self.faults = self.faults.saturating_add(1);
                Err(Refused)
            }
        }
    }

    fn close(&mut self, _circuit: u8, port: UdpPort) {
        self.closed.push(&port);
        drop(port);
    }
}
