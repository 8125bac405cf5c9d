//! What no case of tests/ at the top can say: calls of the outside that fail, each in its turn.
use crate::run::run;
use crate::status::Status;
use daemon_edge::{MemoryPacer, OpenGate, ThreadSpawner, UdpPorts};
use isis_base::{Octets, OutOfMemory};
use isis_edge::{MemorySink, MemorySource};
use std::alloc::Global;
use std::net::Net;
use std::sync::Wait;
use std::test::Fail;
use std::thread::Threads;
use std::time::Clock;

/// How the outside is: how many octets a call gives or takes, which call fails, none at 0, and the sink's room.
#[derive(Clone, Copy)]
struct Outside {
    piece: usize,
    failing_read: u64,
    failing_write: u64,
    room: usize,
}

fn octets(alloc: Global, text: &[u8]) -> Result<Octets, OutOfMemory> {
    let mut octets = Octets::new(alloc);
    octets.extend(text)?;
    Ok(octets)
}

fn source(alloc: Global, input: &[u8], outside: Outside) -> Result<MemorySource, Fail> {
    let failing = [outside.failing_read].to_vec(alloc)?;
    Ok(MemorySource::new(octets(alloc, input)?, outside.piece.max(1), failing))
}

fn sink(alloc: Global, outside: Outside) -> Result<MemorySink, Fail> {
    let failing = [outside.failing_write].to_vec(alloc)?;
    Ok(MemorySink::new(alloc, outside.room, outside.piece.max(1), failing)?)
}

/// Whether the program, run with a word, ends so and has written this.
fn ends<R: Net + Threads + Wait + Clock + Sync>(
    rt: &R,
    alloc: Global,
    word: &str,
    input: &[u8],
    outside: Outside,
    status: Status,
    held: &[u8],
) -> Result<bool, Fail> {
    let mut words = Vec::new(alloc);
    words.push(String::from_str(alloc, word)?)?;
    let mut source = source(alloc, input, outside)?;
    let sink = sink(alloc, outside)?;
    let mut ports = UdpPorts::new();
    let mut spawner = ThreadSpawner::new(Vec::new(alloc));
    let (sink, _, ended) = run(
        rt,
        alloc,
        words.as_slice(),
        &mut source,
        sink,
        &mut ports,
        &mut spawner,
        MemoryPacer::new(0),
        &OpenGate::new(),
    );
    Ok(ended == status && sink.octets() == held)
}

const INPUT: &[u8] = b"83\n831101001a01000000130123456789abcd0900\n8g\n";

const SHOWN: &[u8] =
    b"pdu 1 fault Short 1\npdu 2 l1-psnp length 19 source 0123.4567.89ab.cd tlvs 1\ntlv 9 at 17 length 0\npdu 3 fault Hex 1\n";

const KEYS: &[u8] =
    b"isis-keys 1\nrouter A\nrouter B\nlink A B\nissue A 0000.0000.0001.00-00 2 live\npass 1 A B\n";

const KEYS_REPORT: &[u8] =
    b"isis-report 1\nkey A 0000.0000.0001.00-00 2 live\nkey B 0000.0000.0001.00-00 2 live\n";

/// Two routers on a link, whose acknowledgements are lost.
const LAB: &[u8] =
    b"isis-lab 1\nrouter A 0000.0000.0001 49.0001 L1\nrouter B 0000.0000.0002 49.0001 L1\nlink X A B 10\nrun 7 without psnp\n";

const LAB_REPORT: &[u8] =
    b"isis-report 1\nrouter A 0000.0000.0001 boot 1\nlsp A L1 0000.0000.0001.00-00 2 live\nlsp A L1 0000.0000.0002.00-00 2 live\nrouter B 0000.0000.0002 boot 1\nlsp B L1 0000.0000.0001.00-00 2 live\nlsp B L1 0000.0000.0002.00-00 2 live\nlink X L1 up flags 1 1 ahead 0 0 excepted 0\nagree L1 routers 2 groups 2\nagree L2 routers 0 groups 0\ninjected 0\ndatagrams 14\n";

/// Both commands, each with an input and what it writes of it; of `lab` scripts of both kinds.
const WORKED: [(&str, &[u8], &[u8]); 3] = [
    ("lab", KEYS, KEYS_REPORT),
    ("lab", LAB, LAB_REPORT),
    ("show", INPUT, SHOWN),
];

#[test]
fn failing_calls_are_told(rt: HostRuntime) -> Result<(), Fail> {
    for (row, (word, input, text)) in WORKED.iter().enumerate() {
        assert_eq!(rt;
            first_untold(&rt, rt.alloc(), word, input, text)?,
            None,
            "{row}"
        );
    }
    Ok(())
}

/// Calls of 7 octets: the read that fails, the write that fails, the sink's room, how it ends, and how much is held then. A
/// read or write counted from the end stands behind the last one.
fn first_untold<R: Net + Threads + Wait + Clock + Sync>(
    rt: &R,
    alloc: Global,
    word: &str,
    input: &[u8],
    text: &[u8],
) -> Result<Option<usize>, Fail> {
    // the calls that give octets and the one that gives the end; then those that write
    let reads = input.len().div_ceil(7) as u64;
    let writes = text.len().div_ceil(7) as u64;
    let rows = [
        (1, 0, 4096, Status::ReadFault, 0),
        (reads.saturating_add(1), 0, 4096, Status::ReadFault, 0),
        (reads.saturating_add(2), 0, 4096, Status::Done, text.len()),
        (0, 1, 4096, Status::WriteFault, 0),
        (0, 3, 4096, Status::WriteFault, 14),
        (0, writes.saturating_add(1), 4096, Status::Done, text.len()),
        (0, 0, 0, Status::WriteFault, 0),
        (0, 0, 13, Status::WriteFault, 13),
    ];
    for (row, (failing_read, failing_write, room, status, held)) in rows.iter().enumerate() {
        let outside = Outside {
            piece: 7,
            failing_read: *failing_read,
            failing_write: *failing_write,
            room: *room,
        };
        let held = text.get(..*held).unwrap_or(text);
        if !ends(rt, alloc, word, input, outside, *status, held)? {
            return Ok(Some(row));
        }
    }
    Ok(None)
}

/// Each of the first 20 reads fails, and each of the first 20 writes: it is told exactly where a call of that number was
/// made, and what was written before stands.
#[test]
fn each_call_fails_once(rt: HostRuntime) -> Result<(), Fail> {
    for call in 1..=20u64 {
        let read = is_read_told(&rt, rt.alloc(), call)?;
        let write = is_write_told(&rt, rt.alloc(), call)?;
        assert!(rt; read & write, "{call}");
    }
    Ok(())
}

/// Whether a read that fails, of 7 octets each, is told.
fn is_read_told<R: Net + Threads + Wait + Clock + Sync>(
    rt: &R,
    alloc: Global,
    call: u64,
) -> Result<bool, Fail> {
    let reads = (LAB.len().div_ceil(7) as u64).saturating_add(1);
    let outside = Outside {
        piece: 7,
        failing_read: call,
        failing_write: 0,
        room: 65_536,
    };
    if call <= reads {
        return ends(rt, alloc, "lab", LAB, outside, Status::ReadFault, b"");
    }
    ends(rt, alloc, "lab", LAB, outside, Status::Done, LAB_REPORT)
}

/// Whether a write that fails, of 64 octets each, is told.
fn is_write_told<R: Net + Threads + Wait + Clock + Sync>(
    rt: &R,
    alloc: Global,
    call: u64,
) -> Result<bool, Fail> {
    let writes = LAB_REPORT.len().div_ceil(64) as u64;
    let outside = Outside {
        piece: 64,
        failing_read: 0,
        failing_write: call,
        room: 65_536,
    };
    if call <= writes {
        let before = call.saturating_sub(1).saturating_mul(64) as usize;
        let held = LAB_REPORT.get(..before).unwrap_or(LAB_REPORT);
        return ends(rt, alloc, "lab", LAB, outside, Status::WriteFault, held);
    }
    ends(rt, alloc, "lab", LAB, outside, Status::Done, LAB_REPORT)
}

/// A text of several pages is written page by page: where the second write fails, the first page stands.
#[test]
fn pages_are_written_in_order(rt: HostRuntime) -> Result<(), Fail> {
    let input = numbered(rt.alloc(), false)?;
    let text = numbered(rt.alloc(), true)?;
    let good = are_paged(
        &rt,
        rt.alloc(),
        input.as_str().as_bytes(),
        text.as_str().as_bytes(),
    )?;
    assert!(rt; good);
    Ok(())
}

/// Six hundred lines that are no PDU, or what is shown of them.
fn numbered(alloc: Global, shown: bool) -> Result<String, Fail> {
    let mut text = String::new(alloc);
    for number in 1..=600u32 {
        if shown {
            write!(text, "pdu {number} fault Hex 1\n")?;
        } else {
            text.push_str("8\n")?;
        }
    }
    Ok(text)
}

/// Whether all is written where nothing fails, and the first 8,192 octets where the second write does.
fn are_paged<R: Net + Threads + Wait + Clock + Sync>(
    rt: &R,
    alloc: Global,
    input: &[u8],
    text: &[u8],
) -> Result<bool, Fail> {
    let well = Outside {
        piece: 1 << 20,
        failing_read: 0,
        failing_write: 0,
        room: 1 << 20,
    };
    let second = Outside {
        failing_write: 2,
        ..well
    };
    let held = text.get(..8192).unwrap_or(text);
    Ok(
        ends(rt, alloc, "show", input, well, Status::Done, text)?
            && ends(rt, alloc, "show", input, second, Status::WriteFault, held)?,
    )
}
