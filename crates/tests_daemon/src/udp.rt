//! What UDP sockets do, of which no clause speaks: an offer that the system refuses, and hellos that a port passes over.
use daemon_edge::{Address, CircuitPlace, Offered, Peers, Port, Ports, Taken, UdpPorts};
use std::alloc::Global;
use std::net::Net;
use std::test::Fail;
use std::time::Clock;

/// 127.0.0.1.
const HOST: u32 = 0x7f00_0001;

/// What an offer to a UDP port of this machine answers; `None` where no socket is had.
fn offered<R: Net>(rt: &R, alloc: Global, port: u16) -> Result<Option<Offered>, Fail> {
    let mut peers = Peers::new(alloc);
    peers.push(Address { host: HOST, port })?;
    let bind = Address {
        host: HOST,
        port: 0,
    };
    let mut ports = UdpPorts::new();
    let answer = match ports.open(
        rt,
        1,
        CircuitPlace {
            bind,
            peers,
            native: false,
        },
    ) {
        Ok(mut socket) => {
            let answer = socket.offer(b"ISU2");
            ports.close(1, socket);
            Some(answer)
        }
        Err(_) => None,
    };
    Ok(answer)
}

// Nobody has port 0, so the system refuses to send there; to any other it sends, whether somebody listens or not.
#[test]
fn an_offer_is_refused(rt: HostRuntime) -> Result<(), Fail> {
    assert_eq!(rt; offered(&rt, rt.alloc(), 9)?, Some(Offered::Sent));
    assert_eq!(rt; offered(&rt, rt.alloc(), 0)?, Some(Offered::Failed));
    Ok(())
}

/// A hello of boot 1, whose extended circuit ID is 257, and the same in a frame of boot 16,777,215.
const HELLO: &[u8] =
    b"ISU2\x00\x00\x00\x00\x00\x01\x00\x00\x00\x01\x83\x14\x01\x00\x11\x01\x00\x00\x01\x00\x00\x00\x00\x00\x01\x00\x1e\x00\x24\x01\x01\x04\x03\x49\x00\x01\x81\x01\xcc\xf0\x05\x02\x00\x00\x01\x01";

const FORGED: &[u8] =
    b"ISU2\x00\x00\x00\x00\x00\x01\x00\xff\xff\xff\x83\x14\x01\x00\x11\x01\x00\x00\x01\x00\x00\x00\x00\x00\x01\x00\x1e\x00\x24\x01\x01\x04\x03\x49\x00\x01\x81\x01\xcc\xf0\x05\x02\x00\x00\x01\x01";

/// The boot number's last octet of what a port takes that sent both to itself; `None` where it has no socket, or takes nothing.
fn taken<R: Net + Clock>(
    rt: &R,
    alloc: Global,
    port: u16,
    native: bool,
) -> Result<Option<u8>, Fail> {
    let itself = Address { host: HOST, port };
    let mut peers = Peers::new(alloc);
    peers.push(itself)?;
    let mut ports = UdpPorts::new();
    let place = CircuitPlace {
        bind: itself,
        peers,
        native,
    };
    let Ok(mut socket) = ports.open(rt, 1, place) else {
        return Ok(None);
    };
    socket.offer(FORGED);
    socket.offer(HELLO);
    let mut buffer = [0; 2048];
    let got = match socket.take(rt, &mut buffer) {
        Taken::Got(_) => Some(buffer[13]),
        _ => None,
    };
    ports.close(1, socket);
    Ok(got)
}

// A port whose peers are native passes over what names another boot number than its frame.
#[test]
fn a_forged_boot_number(rt: HostRuntime) -> Result<(), Fail> {
    assert_eq!(rt; taken(&rt, rt.alloc(), 47911, false)?, Some(255));
    assert_eq!(rt; taken(&rt, rt.alloc(), 47912, true)?, Some(1));
    Ok(())
}
