//! What no clause of isis_edge says: each call once, by pieces and with failing calls.
use isis_base::{Octets, OutOfMemory, Snpa};
use isis_edge::{
    FrameFault, Got, MemorySink, MemorySource, Put, Sink, Source, StdSink, StdSource, WholeFault,
    WriteFailed, read_whole, unwrap, wrap, write_all,
};
use std::alloc::Global;
use std::collections::VecDeque;
use std::io;
use std::io::{Read, Write};
use std::test::Fail;

/// The 20 octets of the tests.
const TEXT: &[u8; 20] = b"isis-keys 1\nrouter A";

fn text(alloc: Global, len: usize) -> Result<Octets, OutOfMemory> {
    let mut octets = Octets::new(alloc);
    octets.extend(TEXT.get(..len).unwrap_or(TEXT))?;
    Ok(octets)
}

/// Numbers with a comma between; `-` has none.
fn numbers(alloc: Global, words: &str) -> Option<Vec<u64>> {
    let mut numbers = Vec::new(alloc);
    if words != "-" {
        for word in words.split(',') {
            numbers.push(word.parse::<u64>().ok()?).ok()?;
        }
    }
    Some(numbers)
}

/// A source of so many octets of the text.
fn source(alloc: Global, len: usize, piece: usize, failing: Vec<u64>) -> Option<MemorySource> {
    if piece == 0 {
        return None;
    }
    Some(MemorySource::new(text(alloc, len).ok()?, piece, failing))
}

fn sink(alloc: Global, room: usize, piece: usize, failing: Vec<u64>) -> Option<MemorySink> {
    if piece == 0 {
        return None;
    }
    MemorySink::new(alloc, room, piece, failing).ok()
}

/// Octets, octets a call, calls that fail, the limit, and how many are read or why none are.
const READ: &str = "\
0 1 - 0 0
0 7 - 20 0
0 7 1 20 fault
20 1 - 20 20
20 7 - 20 20
20 64 - 20 20
20 7 - 18446744073709551615 20
20 1 - 19 long
20 7 - 19 long
20 64 - 19 long
20 7 - 0 long
14 7 - 14 14
14 7 - 13 long
20 7 1 20 fault
20 7 2 20 fault
20 7 3 20 fault
20 7 4 20 fault
20 7 5 20 20
20 1 20 20 fault
20 1 21 20 fault
20 1 22 20 20
20 7 2 6 long
20 7 2 7 fault
20 7 9,3 19 fault
20 7 4 19 long";

/// The source of a row, and what else the row says.
fn source_of(alloc: Global, row: &str) -> Option<(MemorySource, &str)> {
    let (len, rest) = row.split_once(' ')?;
    let (piece, rest) = rest.split_once(' ')?;
    let (failing, rest) = rest.split_once(' ')?;
    let failing = numbers(alloc, failing)?;
    let source = source(alloc, len.parse().ok()?, piece.parse().ok()?, failing)?;
    Some((source, rest))
}

/// Whether what was read of a source is what a row says: so many octets of the text, or a fault.
fn is_whole(read: &Result<Octets, WholeFault>, want: &str) -> bool {
    match read {
        Ok(octets) => {
            let len = want.parse().ok();
            len == Some(octets.len()) && TEXT.starts_with(octets.as_slice())
        }
        Err(WholeFault::Fault) => want == "fault",
        Err(WholeFault::TooLong) => want == "long",
        Err(WholeFault::OutOfMemory) => false,
    }
}

fn is_read(alloc: Global, row: &str) -> Option<bool> {
    let (mut source, rest) = source_of(alloc, row)?;
    let (limit, want) = rest.split_once(' ')?;
    let read = read_whole(alloc, &mut source, limit.parse().ok()?);
    Some(is_whole(&read, want))
}

fn first_misread<'a>(alloc: Global, rows: &'a str) -> Option<&'a str> {
    for row in rows.lines() {
        if is_read(alloc, row) != Some(true) {
            return Some(row);
        }
    }
    None
}

#[test]
fn reads_inputs_whole(rt: HostRuntime) {
    assert_eq!(rt; first_misread(rt.alloc(), READ), None);
}

#[test]
fn goes_on_after_a_fault(rt: HostRuntime) -> Result<(), Fail> {
    let (mut source, _) = source_of(rt.alloc(), "20 7 2 -").ok_or("a source")?;
    assert!(rt; read_whole(rt.alloc(), &mut source, 20).is_err());
    let rest = read_whole(rt.alloc(), &mut source, 20)?;
    assert_eq!(rt; rest.as_slice(), b"ys 1\nrouter A".as_slice());
    Ok(())
}

/// What seven calls of a source give.
fn seven_read(source: &mut MemorySource, into: &mut [u8; 9]) -> [Got; 7] {
    let mut got = [Got::End; 7];
    for one in &mut got {
        *one = source.read(into);
    }
    got
}

#[test]
fn reads_piece_by_piece(rt: HostRuntime) -> Result<(), Fail> {
    let (mut source, _) = source_of(rt.alloc(), "20 7 2,6 -").ok_or("a source")?;
    let mut into = [0u8; 9];
    let got = seven_read(&mut source, &mut into);
    let (seven, failed) = (Got::Some(7), Got::Failed);
    let want = [
        seven,
        failed,
        seven,
        Got::Some(6),
        Got::End,
        failed,
        Got::End,
    ];
    assert!(rt; got == want);
    assert_eq!(rt; into.as_slice(), b"uter Ao\0\0".as_slice());
    Ok(())
}

/// Room, octets a call, calls that fail, octets to write, octets held, and whether all was written.
const WRITTEN: &str = "\
20 1 - 20 20 all
20 7 - 20 20 all
20 64 - 20 20 all
99 7 - 20 20 all
19 7 - 20 19 part
13 7 - 20 13 part
13 1 - 20 13 part
0 7 - 20 0 part
0 7 1 0 0 all
20 7 1 20 0 part
20 7 2 20 7 part
20 7 3 20 14 part
20 7 4 20 20 all
20 1 20 20 19 part";

/// The sink of a row, and what else the row says.
fn sink_of(alloc: Global, row: &str) -> Option<(MemorySink, &str)> {
    let (room, rest) = row.split_once(' ')?;
    let (piece, rest) = rest.split_once(' ')?;
    let (failing, rest) = rest.split_once(' ')?;
    let failing = numbers(alloc, failing)?;
    let sink = sink(alloc, room.parse().ok()?, piece.parse().ok()?, failing)?;
    Some((sink, rest))
}

fn is_written(alloc: Global, row: &str) -> Option<bool> {
    let (mut sink, rest) = sink_of(alloc, row)?;
    let (len, rest) = rest.split_once(' ')?;
    let (held, want) = rest.split_once(' ')?;
    let written = write_all(&mut sink, TEXT.get(..len.parse().ok()?)?);
    let is_held = Some(sink.octets()) == TEXT.get(..held.parse().ok()?);
    Some(is_held && written.is_ok() == (want == "all"))
}

fn first_miswritten<'a>(alloc: Global, rows: &'a str) -> Option<&'a str> {
    for row in rows.lines() {
        if is_written(alloc, row) != Some(true) {
            return Some(row);
        }
    }
    None
}

#[test]
fn writes_pieces_whole(rt: HostRuntime) {
    assert_eq!(rt; first_miswritten(rt.alloc(), WRITTEN), None);
}

/// What six calls of a sink take.
fn six_written(sink: &mut MemorySink) -> [Put; 6] {
    let mut put = [Put::Failed; 6];
    for one in &mut put {
        *one = sink.write(b"abcde");
    }
    put
}

#[test]
fn writes_piece_by_piece(rt: HostRuntime) -> Result<(), Fail> {
    let (mut sink, _) = sink_of(rt.alloc(), "10 4 2 -").ok_or("a sink")?;
    let put = six_written(&mut sink);
    let (four, failed) = (Put::Some(4), Put::Failed);
    assert!(rt; put == [four, failed, four, Put::Some(2), failed, failed]);
    assert_eq!(rt; sink.octets(), b"abcdabcdab".as_slice());
    Ok(())
}

/// A reader and writer of which each call fails.
#[derive(Drop)]
struct Broken;

impl Read for Broken {
    fn read(&mut self, _into: &mut [u8]) -> io::Result<usize> {
        Err(io::Error::from_raw_os_error(5))
    }
}

impl Write for Broken {
    fn write(&mut self, _piece: &[u8]) -> io::Result<usize> {
        Err(io::Error::from_raw_os_error(5))
    }

    fn flush(&mut self) -> io::Result<()> {
        Ok(())
    }
}

/// Whether a queue takes the text through an adapter, and one octet more.
fn is_taken(alloc: Global) -> bool {
    let mut sink = StdSink::new(VecDeque::new(alloc));
    write_all(&mut sink, TEXT).is_ok() && sink.write(b"!") == Put::Some(1)
}

#[test]
fn adapts_readers_and_writers(rt: HostRuntime) -> Result<(), Fail> {
    assert!(rt; is_taken(rt.alloc()));
    let mut queue = VecDeque::new(rt.alloc());
    queue.write_all(TEXT)?;
    let mut source = StdSource::new(queue);
    let read = read_whole(rt.alloc(), &mut source, 20)?;
    assert_eq!(rt; read.as_slice(), TEXT.as_slice());
    assert_eq!(rt; source.read(&mut [0]), Got::End);
    Ok(())
}

#[test]
fn adapts_broken_readers_and_writers(rt: HostRuntime) {
    let read = read_whole(rt.alloc(), &mut StdSource::new(Broken), 20);
    assert!(rt; is_whole(&read, "fault"));
    assert_eq!(rt;
        write_all(&mut StdSink::new(Broken), TEXT),
        Err(WriteFailed)
    );
    assert_eq!(rt; write_all(&mut StdSink::new(Broken), b""), Ok(()));
}

/// Whether a PDU is wrapped as this datagram, in boot 7, and unwrapped as it was.
fn is_wrapped(alloc: Global, pdu: &[u8], want: &[u8]) -> Result<bool, OutOfMemory> {
    let snpa = Snpa([0, 0, 0, 0, 0, 1]);
    let datagram = wrap(alloc, snpa, 7, pdu)?;
    Ok(datagram.as_slice() == want && unwrap(datagram.as_slice()) == Ok((snpa, 7, pdu)))
}

#[test]
fn wraps_and_unwraps(rt: HostRuntime) -> Result<(), Fail> {
    let header = b"ISU2\x00\x00\x00\x00\x00\x01\x00\x00\x00\x07";
    assert!(rt; is_wrapped(rt.alloc(), b"", header)?);
    assert!(rt;
        is_wrapped(
            rt.alloc(),
            b"\x83\x1b",
            b"ISU2\x00\x00\x00\x00\x00\x01\x00\x00\x00\x07\x83\x1b"
        )?
    );
    Ok(())
}

/// Datagrams without a frame, and why; `-` is the empty one.
const UNFRAMED: &str = "\
- Short
ISU Short
ISU1 Version
ISU1123456789 Version
ISU11234567890 Version
ISU112345678901 Version
ISU2 Short
ISU2123456789 Short
ISU3 Short
ISU3123456789 Short
ISU31234567890 Magic
isu21234567890 Magic
xISU1234567890 Magic";

/// Whether a datagram has no frame, for the reason of a row.
fn is_unframed(row: &str) -> Option<bool> {
    let (datagram, want) = row.split_once(' ')?;
    let octets = if datagram == "-" { "" } else { datagram };
    let is_right = match unwrap(octets.as_bytes()) {
        Ok(_) => false,
        Err(FrameFault::Version) => want == "Version",
        Err(FrameFault::Short) => want == "Short",
        Err(FrameFault::Magic) => want == "Magic",
    };
    Some(is_right)
}

fn first_framed(rows: &str) -> Option<&str> {
    for row in rows.lines() {
        if is_unframed(row) != Some(true) {
            return Some(row);
        }
    }
    None
}

#[test]
fn tells_why_there_is_no_frame(rt: HostRuntime) {
    assert_eq!(rt; first_framed(UNFRAMED), None);
}

#[test]
fn names_its_faults(rt: HostRuntime) -> Result<(), Fail> {
    let (fault, long, memory) = (
        WholeFault::Fault,
        WholeFault::TooLong,
        WholeFault::OutOfMemory,
    );
    let says = format!(in rt.alloc(); "{fault}, {long}, {memory}, {WriteFailed}")?;
    assert_eq!(rt;
        says.as_str(),
        "read fault, input too long, out of memory, write fault"
    );
    Ok(())
}
