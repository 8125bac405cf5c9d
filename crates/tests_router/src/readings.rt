//! Each type of PDU heard once by router_desk. The octets of the point-to-point hello were written by another
//! program; the others are put together field by field.
use crate::made::{FIRST, HELLO};
use isis_base::{Level, OutOfMemory, Snpa, SystemId};
use isis_pdu::{Pdu, decode};
use isis_tlv::Adj;
use router_desk::{Envelope, Heard, HelloHeard, Seen, hear};
use std::alloc::Global;

/// A point-to-point hello with one area and the state Down; a LAN hello of level 1 with two areas
/// and two SNPAs, the second one's own; an LSP of level 2, a purge; a CSNP of level 1 with two
/// entries in two TLVs, and a PSNP of level 2 without entries.
const PDUS: [&[u8]; 5] = [
    HELLO,
    b"\x83\x1b\x01\x00\x0f\x01\x00\x00\x03\x00\x00\x00\x00\x00\x01\x00\x1e\x00\x31\x40\x00\x00\x00\x00\x00\x01\x02\x01\x06\x03\x49\x00\x01\x01\x49\x06\x0c\x00\x00\x00\x00\x00\x03\x00\x00\x00\x00\x00\x09",
    b"\x83\x1b\x01\x00\x14\x01\x00\x00\x00\x1b\x00\x00\x00\x00\x00\x00\x00\x01\x02\x03\x00\x00\x00\x07\x00\x00\x01",
    b"\x83\x21\x01\x00\x18\x01\x00\x00\x00\x45\x00\x00\x00\x00\x00\x01\x00\x00\x00\x00\x00\x00\x00\x00\x00\xff\xff\xff\xff\xff\xff\xff\xff\x09\x10\x04\xb0\x00\x00\x00\x00\x00\x01\x00\x00\x00\x00\x00\x05\x12\x34\x09\x10\x00\x00\x00\x00\x00\x00\x00\x01\x00\x01\x00\x00\x00\x06\x00\x00",
    b"\x83\x11\x01\x00\x1b\x01\x00\x00\x00\x11\x00\x00\x00\x00\x00\x01\x00",
];

const OWN: SystemId = SystemId([0, 0, 0, 0, 0, 9]);

const SENDER: Snpa = Snpa([0, 0, 0, 0, 0, 1]);

/// The boot that stands in the frames.
const BOOT: u32 = 7;

/// Whether these are the SNPA and the boot that stand in the frames.
fn is_from(snpa: Snpa, boot: u32) -> bool {
    (snpa == SENDER) & (boot == BOOT)
}

/// Whether a hello says what the first of the PDUs does.
fn is_point_hello(hello: &HelloHeard) -> bool {
    let Some(value) = hello.three_way else {
        return false;
    };
    let state = (value.state == Adj::Down) & (value.own_id == Some(257));
    let fields = hello.fields();
    state & (fields.areas.len() == 1) & is_from(fields.snpa, fields.boot)
}

/// Whether a hello says what the second of the PDUs does.
fn is_lan_hello(hello: &HelloHeard) -> bool {
    let head = (hello.priority == 64) & (hello.lan.pseudonode == 2);
    head & (hello.areas.len() == 2) & hello.names_me & is_from(hello.snpa, hello.boot)
}

/// Whether this is what one of the PDUs says.
fn is_right(place: usize, heard: &Heard<'_>) -> bool {
    match heard {
        Heard::PointHello(hello) => (place == 0) & is_point_hello(hello),
        Heard::LanHello(level, hello) => {
            (place == 1) & (*level == Level::One) & is_lan_hello(hello)
        }
        Heard::Lsp { level, from, lsp } => {
            let head = (place == 2) & (*level == Level::Two) & is_from(from.snpa, from.boot);
            let key = (lsp.entry.number == 7) & (lsp.entry.lifetime == 0);
            head & key & (lsp.octets.len() == 27)
        }
        Heard::Snp {
            from,
            source,
            range,
            entries,
            ..
        } => {
            let whole = (place == 3) & (entries.len() == 2) & range.is_some();
            let part = (place == 4) & entries.is_empty() & range.is_none();
            (*source == FIRST) & is_from(from.snpa, from.boot) & (whole | part)
        }
    }
}

/// Whether a PDU is heard as what it says.
fn is_heard(alloc: Global, place: usize, octets: &[u8]) -> Result<bool, OutOfMemory> {
    let Ok((pdu, _)) = decode(octets) else {
        return Ok(false);
    };
    if matches!(pdu, Pdu::Lsp { number: 0, .. }) {
        return Ok(false);
    }
    let seen = Seen {
        from: Envelope {
            snpa: SENDER,
            boot: BOOT,
        },
        pdu,
        octets,
    };
    let heard = hear(alloc, OWN, &seen)?;
    Ok(is_right(place, &heard))
}

/// The first PDU that is heard as something else.
fn misheard(alloc: Global) -> Result<Option<usize>, OutOfMemory> {
    for (place, octets) in PDUS.iter().enumerate() {
        if !is_heard(alloc, place, octets)? {
            return Ok(Some(place));
        }
    }
    Ok(None)
}

#[test]
fn hears_each_type(rt: HostRuntime) {
    assert_eq!(rt; misheard(rt.alloc()), Ok(None));
}
