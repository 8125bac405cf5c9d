//! The desk of router_desk: each cause of a drop and a PDU of each type, from desks_vectors.py beside src/, which packs and
//! signs them by itself; the limits of a configuration from both sides; and each call once with ample memory.
use crate::made::{FIRST, bare, circuit, octets};
use adjacency::HelloDrop;
use hmac_auth::AuthFault;
use isis_base::{AreaAddress, CircuitKind, Level, LevelSet, Octets, OutOfMemory, Prefix};
use isis_pdu::{FrameFault, PduFault, PduFaultKind};
use router_desk::{Areas, CircuitConfig, Circuits, Config, Desk, DropCause, Opened, Prefixes};
use std::alloc::Global;

/// The desk, the circuit, the datagram in hex, and the outcome in the form of `Debug`.
const ROWS: &str = "\
open 1 4953553200000000000201020304831401001101000003000000000002001e001a01010403490001 None
open 2 4953553200000000000201020304831b01000f01000001000000000002001e00214000000000000201010403490001 None
open 2 4953553200000000000201020304831b01001001000002000000000002001e00214000000000000201010403490001 None
open 1 4953553200000000000201020304831b010012010000002104b0000000000002000000000001802703010403490001 None
open 1 495355320000000000020102030483210100180100000033000000000002000000000000000000ffffffffffffffff091000000000000000000000000000000000 None
open 1 4953553200000000000201020304831101001a010000002300000000000200091000000000000000000000000000000000 None
open 1 4953553200000000000201020304831b010014010000002104b0000000000002000000000001802703010403490001 None
open 1 495355320000000000020102030483210100190100000033000000000002000000000000000000ffffffffffffffff091000000000000000000000000000000000 None
open 1 4953553200000000000201020304831101001b010000002300000000000200091000000000000000000000000000000000 None
open 2 4953553200000000000201020304831b010012010000002104b0000000000002000000000001802703010403490001 None
open 2 495355320000000000020102030483210100180100000033000000000002000000000000000000ffffffffffffffff091000000000000000000000000000000000 None
open 2 4953553200000000000201020304831101001a010000002300000000000200091000000000000000000000000000000000 None
open 2 4953553200000000000201020304831b010014010000002104b0000000000002000000000001802703010403490001 None
open 2 495355320000000000020102030483210100190100000033000000000002000000000000000000ffffffffffffffff091000000000000000000000000000000000 None
open 2 4953553200000000000201020304831101001b010000002300000000000200091000000000000000000000000000000000 None
open 1 4953553200000000000201020304831101001a01000000110000000000020001 None
open 1 4953553200000000000201020304831b010012010000001b0000000000000002000000000001000103 None
keyed 1 4953553200000000000201020304831401001101000003000000000002001e0027010a1136c330e180157a9d9bc6eaba461cb2f98b None
keyed 1 4953553200000000000201020304831101001a0100000024000000000002000a113631dfe91783b1ef34af47275d5f76c096 None
keyed 2 4953553200000000000201020304831b01000f01000001000000000002001e00214000000000000201010403490001 None
open 1 49535532000000000002010203 Some(Frame(Short))
open 1 495355 Some(Frame(Short))
open 1 4953553300000000000201020304 Some(Frame(Magic))
open 1 49535531 Some(Version)
open 1 49535531000000000002831401001101000003000000000002001e001a01010403490001 Some(Version)
open 1 4953553200000000000201020304 Some(Pdu(PduFault { kind: Short, place: 0 }))
open 1 4953553200000000000201020304831101001a0100000011000000000002 Some(Pdu(PduFault { kind: Short, place: 16 }))
open 1 4953553200000000000201020304831b01000f01000001000000000002001e001b4000000000000201 Some(WrongKind)
open 2 4953553200000000000201020304831401001101000003000000000002001e001401 Some(WrongKind)
keyed 1 4953553200000000000201020304831101001b010000001100000000000200 Some(WrongLevel)
keyed 1 4953553200000000000201020304831b01001001000002000000000002001e001b4000000000000201 Some(WrongKind)
keyed 1 4953553200000000000201020304831101001a010000001100000000000200 Some(Auth(Missing))
keyed 1 4953553200000000000201020304831401001101000003000000000002001e0027010a11363d8dd7bb2599b3b9d0a9dc193f026683 Some(Auth(Wrong))
keyed 1 4953553200000000000201020304831101001a0100000015000000000002000a020161 Some(Auth(OtherType))
keyed 1 4953553200000000000201020304831b010012010000003400000000000000020000000000010000030104034900010a1136c572c1d37f163ccba3ad76f66ad02d35 Some(Auth(PurgeBody))
open 1 4953553200000000000201020304831401001101000003000000000002001e001b010105034900010e Some(Value { place: 26 })
open 1 4953553200000000000201020304831401001101000003000000000002001e001d01060700000000000200 Some(Value { place: 28 })
open 2 4953553200000000000201020304831b01000f01000001000000000002001e00244000000000000201010403490001f00103 Some(Value { place: 35 })
open 1 4953553200000000000201020304831101001a01000000240000000000020009110000000000000000000000000000000000 Some(Value { place: 35 })
open 1 495355320000000000020102030483210100180100000026000000000002000000000000000000ffffffffffffffff0900090100 Some(Value { place: 37 })
open 1 4953553200000000000201020304831b010012010000001b04b0000000000002000000000000f20803 Some(ZeroNumber)
open 1 4953553200000000000201020304831b010012010000001b0000000000000002000000000000000003 Some(ZeroNumber)
open 1 4953553200000000000201020304831b010012010000001b04b0000000000002000000000001000003 Some(BadChecksum)
open 1 4953553200000000000201020304831b010012010000001b04b0000000000002000000000001000103 Some(BadChecksum)";

/// A PSNP's header with a PDU length of 1,493 octets.
const LONG: &[u8] = b"\x83\x11\x01\x00\x1a\x01\x00\x00\x05\xd5\x00\x00\x00\x00\x00\x02\x00";

/// The same of a point-to-point hello.
const LONG_HELLO: &[u8] =
    b"\x83\x14\x01\x00\x11\x01\x00\x00\x03\x00\x00\x00\x00\x00\x02\x00\x1e\x05\xd5\x01";

/// How many areas and circuits, the metric, priority and key octets of each circuit, how many
/// prefixes, how far their addresses are apart, their metric, the octets of the area and of the
/// domain key; and 1 where that is within the limits.
const LIMITS: [[u32; 11]; 26] = [
    [1, 1, 0, 0, 1, 0, 1, 0, 1, 1, 1],
    [0, 1, 0, 0, 1, 0, 1, 0, 1, 1, 0],
    [3, 1, 0, 0, 1, 0, 1, 0, 1, 1, 1],
    [4, 1, 0, 0, 1, 0, 1, 0, 1, 1, 0],
    [1, 0, 0, 0, 1, 0, 1, 0, 1, 1, 1],
    [1, 64, 0, 0, 1, 0, 1, 0, 1, 1, 1],
    [1, 65, 0, 0, 1, 0, 1, 0, 1, 1, 0],
    [1, 1, 16777215, 0, 1, 0, 1, 0, 1, 1, 1],
    [1, 1, 16777216, 0, 1, 0, 1, 0, 1, 1, 0],
    [1, 1, 0, 127, 1, 0, 1, 0, 1, 1, 1],
    [1, 1, 0, 128, 1, 0, 1, 0, 1, 1, 0],
    [1, 1, 0, 0, 0, 0, 1, 0, 1, 1, 0],
    [1, 1, 0, 0, 128, 0, 1, 0, 1, 1, 1],
    [1, 1, 0, 0, 129, 0, 1, 0, 1, 1, 0],
    [1, 1, 0, 0, 1, 4096, 1, 0, 1, 1, 1],
    [1, 1, 0, 0, 1, 4097, 1, 0, 1, 1, 0],
    [1, 1, 0, 0, 1, 4096, 2097152, 0, 1, 1, 0],
    [1, 1, 0, 0, 1, 2, 0, 0, 1, 1, 0],
    [1, 1, 0, 0, 1, 1, 1, 4261412864, 1, 1, 1],
    [1, 1, 0, 0, 1, 1, 1, 4261412865, 1, 1, 0],
    [1, 1, 0, 0, 1, 0, 1, 0, 0, 1, 0],
    [1, 1, 0, 0, 1, 0, 1, 0, 128, 1, 1],
    [1, 1, 0, 0, 1, 0, 1, 0, 129, 1, 0],
    [1, 1, 0, 0, 1, 0, 1, 0, 1, 0, 0],
    [1, 1, 0, 0, 1, 0, 1, 0, 1, 128, 1],
    [1, 1, 0, 0, 1, 0, 1, 0, 1, 129, 0],
];

/// Each cause, and its name.
const NAMES: [(DropCause, &str); 21] = [
    (DropCause::Frame(isis_pdu::FrameFault::Short), "frame"),
    (DropCause::Version, "version"),
    (
        DropCause::Pdu(PduFault {
            kind: PduFaultKind::Tlv,
            place: 20,
        }),
        "pdu",
    ),
    (DropCause::TooLong, "too-long"),
    (DropCause::WrongKind, "wrong-kind"),
    (DropCause::WrongLevel, "wrong-level"),
    (DropCause::Auth(hmac_auth::AuthFault::Wrong), "auth"),
    (DropCause::Value { place: 22 }, "value"),
    (DropCause::ZeroNumber, "zero-number"),
    (DropCause::BadChecksum, "checksum"),
    (DropCause::Hello(HelloDrop::OwnId), "own-id"),
    (DropCause::Hello(HelloDrop::OtherSnpa), "other-snpa"),
    (DropCause::Hello(HelloDrop::OldBoot), "old-boot"),
    (DropCause::Hello(HelloDrop::NoLevel), "no-level"),
    (DropCause::Hello(HelloDrop::NoArea), "no-area"),
    (DropCause::Hello(HelloDrop::NoThreeWay), "no-three-way"),
    (
        DropCause::Hello(HelloDrop::OtherNeighbour),
        "other-neighbour",
    ),
    (DropCause::Hello(HelloDrop::TooMany), "too-many"),
    (DropCause::NoAdjacency, "no-adjacency"),
    (DropCause::NotDesignated, "not-designated"),
    (DropCause::StoreFull, "store-full"),
];

/// A key of so many octets.
fn key_of(alloc: Global, len: u32) -> Result<Option<Octets>, OutOfMemory> {
    let mut key = Octets::new(alloc);
    for _ in 0..len {
        key.push(b'k')?;
    }
    Ok(Some(key))
}

/// The key of a text.
fn key(alloc: Global, text: &[u8]) -> Result<Option<Octets>, OutOfMemory> {
    Ok(Some(octets(alloc, text)?))
}

/// Adds so many areas.
fn add_areas(areas: &mut Areas, count: u32) -> Result<(), OutOfMemory> {
    let Some(area) = AreaAddress::new(&[0x49, 0, 1]) else {
        return Ok(());
    };
    for _ in 0..count {
        areas.push(area)?;
    }
    Ok(())
}

/// Adds a circuit of a metric, a priority and a key of so many octets.
fn add_circuit(
    alloc: Global,
    circuits: &mut Circuits,
    metric: u32,
    priority: u8,
    key: u32,
) -> Result<(), OutOfMemory> {
    let mut next = circuit(CircuitKind::Lan, key_of(alloc, key)?);
    next.metric = metric;
    next.priority = priority;
    circuits.push(next)
}

/// Adds so many prefixes, of addresses so far apart, and their metric.
fn add_prefixes(
    prefixes: &mut Prefixes,
    count: u32,
    step: u32,
    metric: u32,
) -> Result<(), OutOfMemory> {
    for place in 0..count {
        if let Some(prefix) = Prefix::new(place.wrapping_mul(step), 32) {
            prefixes.push((prefix, metric))?;
        }
    }
    Ok(())
}

/// Makes a configuration that of a row.
fn fill(alloc: Global, config: &mut Config, row: &[u32; 11]) -> Result<(), OutOfMemory> {
    let Ok(priority) = u8::try_from(row[3]) else {
        return Ok(());
    };
    add_areas(&mut config.areas, row[0])?;
    for _ in 0..row[1] {
        add_circuit(alloc, &mut config.circuits, row[2], priority, row[4])?;
    }
    add_prefixes(&mut config.prefixes, row[5], row[6], row[7])?;
    config.area_key = key_of(alloc, row[8])?;
    config.domain_key = key_of(alloc, row[9])?;
    Ok(())
}

/// Whether the configuration of a row is within the limits.
fn is_within(alloc: Global, row: &[u32; 11]) -> Result<bool, OutOfMemory> {
    let mut config = bare(alloc, FIRST, LevelSet::Both);
    fill(alloc, &mut config, row)?;
    Ok(config.valid())
}

/// The first row that is judged otherwise.
fn misjudged(alloc: Global) -> Result<Option<usize>, OutOfMemory> {
    for (place, row) in LIMITS.iter().enumerate() {
        if is_within(alloc, row)? != (row[10] == 1) {
            return Ok(Some(place));
        }
    }
    Ok(None)
}

/// Lays out an area, a point-to-point circuit 1 and a LAN 2; with keys, of the area and of circuit
/// 1, or without.
fn lay_out(alloc: Global, config: &mut Config, keyed: bool) -> Result<(), OutOfMemory> {
    add_areas(&mut config.areas, 1)?;
    let mut link = None;
    if keyed {
        config.area_key = key(alloc, b"area")?;
        link = key(alloc, b"link")?;
    }
    let point = circuit(CircuitKind::PointToPoint, link);
    config.circuits.push(point)?;
    config.circuits.push(circuit(CircuitKind::Lan, None))
}

/// The desk of a configuration, copied.
fn desk_by(alloc: Global, config: &Config) -> Result<Desk, OutOfMemory> {
    let desk = Desk::new(alloc, config)?;
    desk.copy()
}

/// The desk of a router of both levels without keys, or of L1 with some.
fn desk_of(alloc: Global, keyed: bool) -> Result<Desk, OutOfMemory> {
    let levels = if keyed { LevelSet::One } else { LevelSet::Both };
    let mut config = bare(alloc, FIRST, levels);
    lay_out(alloc, &mut config, keyed)?;
    let copy = config.copy()?;
    desk_by(alloc, &copy)
}

/// What a desk finds in a datagram, on a circuit that it has.
fn opened(desk: &Desk, circuit: u8, datagram: Octets) -> Option<Opened> {
    if circuit < 1 || usize::from(circuit) > desk.circuit_count() {
        return None;
    }
    Some(desk.open(circuit, datagram))
}

/// A row: whether the router has keys, the circuit, the datagram in hex, and the outcome.
#[derive(Drop)]
struct Row<'a> {
    keyed: bool,
    circuit: u8,
    hex: &'a str,
    outcome: &'a str,
}

/// The row of a line.
fn row_of(line: &str) -> Option<Row<'_>> {
    let (desk, rest) = line.split_once(' ')?;
    let (circuit, rest) = rest.split_once(' ')?;
    let (hex, outcome) = rest.split_once(' ')?;
    Some(Row {
        keyed: desk == "keyed",
        circuit: if circuit == "1" { 1 } else { 2 },
        hex,
        outcome,
    })
}

/// The octets of hex digits.
fn octets_of(alloc: Global, hex: &str) -> Result<Octets, OutOfMemory> {
    match hex::decode(alloc, hex) {
        Ok(bytes) => octets(alloc, &bytes),
        Err(_) => Err(OutOfMemory),
    }
}

/// Whether a datagram was seen whole, from the sender of the rows, in its boot.
fn is_seen(found: &Opened) -> bool {
    match found.seen() {
        Ok(seen) => {
            let whose = seen.from.snpa.0 == [0, 0, 0, 0, 0, 2];
            let whose = whose & (seen.from.boot == 0x0102_0304);
            whose & (seen.octets.len() >= 17)
        }
        Err(_) => false,
    }
}

/// Whether these are the words of an outcome.
fn is_worded(alloc: Global, outcome: Option<DropCause>, want: &str) -> bool {
    let mut words = String::new(alloc);
    match write!(words, "{outcome:?}") {
        Ok(()) => words.as_str() == want,
        Err(_) => false,
    }
}

/// Whether what was opened says what a row does.
fn says(alloc: Global, found: &Opened, row: &Row<'_>) -> bool {
    let outcome = found.outcome();
    let seen = is_seen(found) == outcome.is_none();
    seen & (found.circuit() == row.circuit) & is_worded(alloc, outcome, row.outcome)
}

/// Whether a copy of what was opened says what a row does.
fn is_copied(alloc: Global, found: &Opened, row: &Row<'_>) -> Result<bool, OutOfMemory> {
    let copy = found.copy()?;
    Ok(says(alloc, &copy, row) & (copy.octets() == found.octets()))
}

/// Whether a desk finds what a row says.
fn is_found(alloc: Global, desk: &Desk, row: &Row<'_>) -> Result<bool, OutOfMemory> {
    let datagram = octets_of(alloc, row.hex)?;
    match &opened(desk, row.circuit, datagram) {
        Some(found) => is_copied(alloc, found, row),
        None => Ok(false),
    }
}

/// The first line, of a router with keys or without, in which a desk finds something else; and how many were looked at.
fn misread(
    alloc: Global,
    desk: &Desk,
    keyed: bool,
) -> Result<(Option<&'static str>, u8), OutOfMemory> {
    let mut count: u8 = 0;
    for line in ROWS.lines() {
        let Some(row) = row_of(line) else {
            return Ok((Some(line), count));
        };
        if row.keyed != keyed {
            continue;
        }
        if !is_found(alloc, desk, &row)? {
            return Ok((Some(line), count));
        }
        count = count.wrapping_add(1);
    }
    Ok((None, count))
}

/// The same of the desk of such a router.
fn first_misread(alloc: Global, keyed: bool) -> Result<(Option<&'static str>, u8), OutOfMemory> {
    let desk = desk_of(alloc, keyed)?;
    misread(alloc, &desk, keyed)
}

/// Adds TLVs of code 8 up to 1,507 octets: of 255 octets each, and then one of those that are
/// left.
fn add_zeros(datagram: &mut Octets) -> Result<(), OutOfMemory> {
    let zeros = [0; 255];
    for _ in 0..5 {
        datagram.extend(&[8, 255])?;
        datagram.extend(&zeros)?;
    }
    let left = 1505usize.saturating_sub(datagram.len());
    let Ok(count) = u8::try_from(left) else {
        return Ok(());
    };
    datagram.extend(&[8, count])?;
    for _ in 0..count {
        datagram.push(0)?;
    }
    Ok(())
}

/// What a desk finds in a datagram of a header and TLVs of zeros, 1,493 octets of PDU in all.
fn cause_of_long(
    alloc: Global,
    desk: &Desk,
    header: &[u8],
) -> Result<Option<DropCause>, OutOfMemory> {
    let mut datagram = octets(alloc, b"ISU2\x00\x00\x00\x00\x00\x02\x00\x00\x00\x07")?;
    datagram.extend(header)?;
    add_zeros(&mut datagram)?;
    match &opened(desk, 1, datagram) {
        Some(found) => Ok(found.outcome()),
        None => Err(OutOfMemory),
    }
}

/// What a desk finds in a hello that is that long, and in a PSNP.
fn causes_of_long(alloc: Global) -> Result<[Option<DropCause>; 2], OutOfMemory> {
    let desk = desk_of(alloc, false)?;
    Ok([
        cause_of_long(alloc, &desk, LONG_HELLO)?,
        cause_of_long(alloc, &desk, LONG)?,
    ])
}

/// The first cause that has another name.
fn misnamed() -> Option<usize> {
    for (place, (cause, word)) in NAMES.iter().enumerate() {
        if cause.name().word() != *word {
            return Some(place);
        }
    }
    None
}

/// Whether a list is what was pushed.
fn is_pushed(alloc: Global, prefix: Prefix) -> Result<bool, OutOfMemory> {
    let mut list = Prefixes::new(alloc);
    let none = list.is_empty();
    list.push((prefix, 7))?;
    let copy = list.copy()?;
    let first = (copy.len() == 1) & (copy.get(0).copied() == Some((prefix, 7)));
    Ok(none & first & copy.get(1).is_none() & (copy.as_slice() == list.as_slice()))
}

/// How many octets the key of a circuit's copy has.
fn copied_key(config: &CircuitConfig) -> Result<usize, OutOfMemory> {
    let copy = config.copy()?;
    match &copy.key {
        Some(key) => Ok(key.len()),
        None => Ok(0),
    }
}

/// The same of a circuit with a key of three octets.
fn key_of_three(alloc: Global) -> Result<usize, OutOfMemory> {
    copied_key(&circuit(CircuitKind::Lan, key_of(alloc, 3)?))
}

/// Whether the area's key has so many octets, and the domain has none.
fn has_area_key(desk: &Desk, len: usize) -> bool {
    let area = match desk.key(Level::One) {
        Some(key) => key.len() == len,
        None => false,
    };
    area & desk.key(Level::Two).is_none()
}

/// Whether a desk with keys lends its parts.
fn lends_parts(alloc: Global) -> Result<bool, OutOfMemory> {
    let desk = desk_of(alloc, true)?;
    if desk.circuit_count() != 2 {
        return Ok(false);
    }
    let whose = (desk.system() == FIRST) & (desk.levels() == LevelSet::One);
    let circuits = (desk.kind(2) == CircuitKind::Lan) & desk.hello_key(1).is_some();
    Ok(whose & circuits & desk.hello_key(2).is_none() & has_area_key(&desk, 4))
}

#[test]
fn each_cause_and_each_type_once(rt: HostRuntime) {
    assert_eq!(rt; first_misread(rt.alloc(), false), Ok((None, 35)));
    assert_eq!(rt; first_misread(rt.alloc(), true), Ok((None, 9)));
}

#[test]
fn takes_long_hellos_alone(rt: HostRuntime) {
    let want = [None, Some(DropCause::TooLong)];
    assert_eq!(rt; causes_of_long(rt.alloc()), Ok(want));
}

#[test]
fn limits_hold_on_both_sides(rt: HostRuntime) {
    assert_eq!(rt; misjudged(rt.alloc()), Ok(None));
}

#[test]
fn each_cause_has_its_name(rt: HostRuntime) {
    assert_eq!(rt; misnamed(), None);
}

#[test]
fn lists_are_what_was_pushed(rt: HostRuntime) {
    let Some(prefix) = Prefix::new(0x0a00_0000, 8) else {
        panic!(rt; "a prefix")
    };
    assert_eq!(rt; is_pushed(rt.alloc(), prefix), Ok(true));
    assert_eq!(rt; key_of_three(rt.alloc()), Ok(3));
}

#[test]
fn a_desk_lends_its_parts(rt: HostRuntime) {
    assert_eq!(rt; lends_parts(rt.alloc()), Ok(true));
}
